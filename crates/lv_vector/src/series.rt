//! A list without a limit: its elements and edits are bounded by memory only, and its first elements may expire. Also such a list with a time for
//! each element, and queries of both.

pub use lv_saved::{
    LoadRefusal, Loader, damage_shows, save, save_samples, saved_bytes, saved_samples_bytes,
};
pub use lv_script::{
    AskedSamples, AskedSeries, SampleQuery, SampleSpan, samples_answer_by_their_edits,
};
pub use lv_series::{
    LongAnswer, LongEdit, LongReceipt, LongRefusal, LongScan, Sample, SampleEdit, SampleRefusal,
    Samples, Series, Window, every_answer_is_plain, every_sample_answer_is_plain,
    refusals_change_nothing,
};
pub use lv_tree::KindSummary;
