//! A source in memory: [`MemSource`]. Tests read from it.

ghost use Rattle.std.specs.Prelude.{◌≡◌, ◌+◌, ◌≤◌, ◌<◌, ◌^◌, [], Some, ◌++◌, drop, take, length, min, true, false, is_err, IfOk, OnOk, OnErr};
ghost use Rattle.norm_memory.specs.Calls.{next_fails, after_call};
ghost use Rattle.norm_base.specs.Faults.{Counts};
ghost use Rattle.norm_memory.specs.Reading.{after_read};
ghost use Rattle.norm_base.specs.Told.{before_taking};

use crate::calls::CallCount;
use norm_base::{Failed, Source};
use std::marker::Model;

/// Octets in memory. A call fails, and changes nothing but its counts, if its number is listed.
#[derive(Debug, Drop)]
pub struct MemSource {
    octets: Vec<u8>,
    at: usize,
    calls: CallCount,
}

impl Model for MemSource {
    ghost use Rattle.std.specs.Prelude.{◌≤◌, drop, vec_len};
    ghost use Rattle.norm_memory.specs.Reading.{MemSourceState};

    ghost Value = { MemSourceState };

    ghost view = { λ s. record { left = drop s.at s.octets.items; given = s.at; calls = s.calls } };

    ghost invariant = { λ s. s.at ≤ vec_len s.octets };
}

impl MemSource {
    /// Returns a source of these octets. Its calls with these numbers, from 1, fail.
    pub fn of(bytes: Vec<u8>, failing: Vec<u64>) -> MemSource
        ensures left { result.left ≡ bytes.items }
        ensures given { result.given ≡ 0 }
        ensures calls { result.calls ≡ record { failing = failing.items; made = 0; faults = 0 } }
    {
        MemSource {
            octets: bytes,
            at: 0,
            calls: CallCount::of(failing),
        }
    }

    /// Returns how many reads were asked for, failed ones too.
    pub fn reads(&self) -> u64
        ensures { result ≡ self.now.calls.made }
    {
        self.calls.made()
    }
}

/// Gives octets to the buffer of a read, as sources and files in memory do. What the buffer has after them stays.
pub(crate) fn copy_front(buf: &mut [u8], octets: &[u8])
    requires { length octets.now ≤ length buf.old }
    ensures { buf.new ≡ octets.now ++ drop (length octets.now) buf.old }
{
    buf[..octets.len()].copy_from_slice(octets);
}

impl Source for MemSource {
    ghost left = { λ s. Some s.left };

    ghost given = { λ s. s.given };

    ghost fault_count = { λ s. s.calls.faults };

    fn read(&mut self, buf: &mut [u8]) -> Result<usize, Failed>
        ensures fails { is_err result ≡ next_fails self.old.calls }
        ensures exact { IfOk result (λ n. n ≡ min (length self.old.left) (length buf.old)) }
        ensures front { IfOk result (λ n. buf.new ≡ take n self.old.left ++ drop n buf.old) }
        ensures state { IfOk result (λ n. self.new ≡ after_read self.old n (after_call self.old.calls false)) }
        ensures kept { OnErr result (buf.new ≡ buf.old) }
        ensures failed { OnErr result (self.new ≡ after_read self.old 0 (after_call self.old.calls true)) }
        ensures count { IfOk result (λ n. n ≤ length buf.old) }
        ensures octets { IfOk result (λ n. Some self.old.left ≡ before_taking (take n buf.new) (Some self.new.left)) }
        ensures end { IfOk result (λ n. n ≡ 0 → 0 < length buf.old → self.new.left ≡ []) }
        ensures given { IfOk result (λ n. self.new.given ≡ self.old.given + n) }
        ensures limit { OnOk result (self.new.given < 2 ^ 63) }
        ensures err { OnErr result ((Some self.new.left ≡ Some self.old.left) × (self.new.given ≡ self.old.given)) }
        ensures cause { Counts self.old.calls.faults self.new.calls.faults (is_err result) }
    {
        if self.calls.next_fails() {
            self.calls.fail();
            return Err(Failed);
        }
        self.calls.pass();
        let left = self.octets.split_at(self.at).1;
        let n = left.len().min(buf.len());
        copy_front(buf, left.split_at(n).0);
        self.at += n;
        Ok(n)
    }

    fn faults(&self) -> u64 {
        self.calls.faults()
    }
}
