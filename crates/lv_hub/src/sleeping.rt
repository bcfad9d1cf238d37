//! How workers and subscribers wait at a hub, and what wakes them.
use crate::desks::Desk;
use crate::hubs::Hub;
use lv_bodies::Body;
use lv_history::WithBody;
use lv_refresh::Job;
use std::sync::{MutexGuard, Wait};
use std::thread::Parker;
use std::time::Duration;

// How often a worker naps while others have the lock, and how long.
const NAPS: u32 = 8;

const NAP_MICROSECONDS: u64 = 100;

impl<B: Body, N: WithBody<B>> Hub<B, N> {
    // Wakes a worker, if that is wanted, and all subscribers, if that is wanted.
    pub(crate) fn wake(&self, wakes: bool, calls: bool) {
        if wakes {
            self.bell.notify_one();
        }
        if calls {
            self.news.notify_all();
        }
    }

    // Takes the lock, for a worker. While others hold it, the worker naps and tries again, a few times, so that threads that make calls go first.
    // After that it waits as they do.
    fn lock_last<R: Wait>(&self, rt: &R) -> MutexGuard<'_, Desk<B, N>> {
        let pillow = Parker::new();
        for _ in 0..NAPS {
            if let Some(desk) = self.desk.try_lock() {
                return desk;
            }
            pillow.park_timeout(rt, Duration::from_micros(NAP_MICROSECONDS));
        }
        self.desk.lock(rt)
    }

    // A job for the least node that needs one, unless the workers were dismissed. If there is no job and sleeping is wanted, it sleeps until an
    // update or a dismissal wakes it, and then returns none. It looks for a job and counts itself as asleep under one lock, so that no update
    // comes in between.
    pub(crate) fn claim_or_sleep<R: Wait>(&self, rt: &R, sleeps: bool) -> Option<Job<B>> {
        let mut desk = self.lock_last(rt);
        if desk.is_dismissed() {
            return None;
        }
        let claimed = desk.claim();
        if sleeps && claimed.is_none() {
            desk.count_asleep();
            drop(self.bell.wait(rt, desk));
        }
        claimed
    }

    /// Sleeps until the vector has a full block, so that workers may find a job, or until they are dismissed. Returns false if they were
    /// dismissed.
    pub fn wait_for_work<R: Wait>(&self, rt: &R) -> bool {
        let desk = self.desk.lock(rt);
        let desk = self.bell.wait_while(rt, desk, |desk| desk.has_no_work());
        !desk.is_dismissed()
    }

    // Wakes a worker that sleeps, if there is one.
    pub(crate) fn wake_another<R: Wait>(&self, rt: &R) {
        if self.desk.lock(rt).wakes_another() {
            self.bell.notify_one();
        }
    }

    // Whether the workers were dismissed.
    pub(crate) fn is_dismissed<R: Wait>(&self, rt: &R) -> bool {
        self.desk.lock(rt).is_dismissed()
    }

    // Sleeps until there are more updates than `seen`, or until the workers are dismissed. Returns false if they were dismissed.
    pub(crate) fn wait_for_news<R: Wait>(&self, rt: &R, seen: u64) -> bool {
        let desk = self.desk.lock(rt);
        let desk = self
            .news
            .wait_while(rt, desk, |desk| desk.has_no_news(seen));
        !desk.is_dismissed()
    }

    /// Ends the workers that attend and the subscribers, now and from now on. Those that sleep are woken, and each ends at its next turn.
    /// Everything else continues as before.
    pub fn dismiss<R: Wait>(&self, rt: &R) {
        self.desk.lock(rt).dismiss();
        self.bell.notify_all();
        self.news.notify_all();
    }
}
