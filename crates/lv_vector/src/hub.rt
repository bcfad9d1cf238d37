//! The vector for many threads under one lock: sessions, workers, subscribers.

pub use lv_hub::{
    Ended, Gate, HistoryPrefix, Hub, Naming, OpenGate, Opened, Query, Share, Subscriber, Told,
    WithBody, Worked, attend, replies_are_true_of_one_list, work,
};
