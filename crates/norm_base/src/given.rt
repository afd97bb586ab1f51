//! Collects the values that a script, a profile file or the input of `replay` sets, for [`Profile::of`](crate::profile::Profile::of).

ghost use Rattle.std.specs.Prelude.{◌≡◌, IsTrue, true, is_some, unwrap_or};
ghost use Rattle.norm_base.specs.Given.{nothing_given, given_at, give, default_beside, value_in, are_values, meets_rules, are_in_range};
ghost use Rattle.norm_base.specs.Keys.{row_of, keys, is_value};
ghost use Rattle.norm_base.specs.Settings.{InRange, settings_with};

use crate::key::{KEYS, Key};
use std::marker::Model;

/// Values for some keys of a profile. To refuse a second value for a key, call [`has`](Given::has)
/// before [`set`](Given::set). [`Profile::of`](crate::profile::Profile::of) checks all values together.
#[derive(Clone, Copy, Debug, PartialEq, Eq)]
pub struct Given {
    values: [Option<u32>; 26],
}

impl Model for Given {
    ghost use Rattle.std.specs.Prelude.{ℕ, List, Option};

    ghost Value = { List (Option ℕ) };

    ghost view = { λ g. g.values };

    ghost inverse = { λ values. record { values = values } };
}

impl Given {
    /// Returns no values: each key then has its default.
    pub fn new() -> Given
        ensures { result ≡ nothing_given }
    {
        Given { values: [None; 26] }
    }

    /// Whether [`set`](Given::set) was called for the key, be it with the default.
    pub fn has(&self, key: Key) -> bool
        ensures { result ≡ is_some (given_at self.now key) }
    {
        self.values[key.place()].is_some()
    }

    /// Sets the key, without a check of the value. An earlier value of it is replaced.
    pub fn set(&mut self, key: Key, value: u32)
        ensures { self.new ≡ give self.old key value }
    {
        self.values[key.place()] = Some(value);
    }

    /// Returns the value that was set, or the default. The default of `max_n` is one and a half times `b`, rounded down, at most 255.
    pub fn value(&self, key: Key) -> u32
        ensures { result ≡ value_in self.now key }
    {
        match self.values[key.place()] {
            Some(value) => value,
            None => self.default_of(key),
        }
    }

    fn default_of(&self, key: Key) -> u32
        ensures { result ≡ default_beside (unwrap_or (given_at self.now Key.B) (row_of Key.B).default) key }
    {
        // Half as much parity as data, as far as 255 encoded symbols go: a default that fits any `b` in its range.
        if key == Key::MaxN {
            let b = self.values[Key::B.place()].unwrap_or(Key::B.row().default);
            return 255.min(b.saturating_add(b / 2));
        }
        key.row().default
    }

    /// Whether each value is in its key's range, and the two rules across keys hold.
    pub(crate) fn are_in_range(&self) -> bool
        ensures value { result ≡ are_in_range (value_in self.now) }
        ensures range { IsTrue result → InRange (settings_with (value_in self.now)) }
    {
        self.are_values(&KEYS) && self.meets_rules()
    }

    /// Whether `b <= max_n`, and `blocks * b * e` is at most 16,777,216.
    fn meets_rules(&self) -> bool
        requires { are_values (value_in self.now) keys ≡ true }
        ensures { result ≡ meets_rules (value_in self.now) }
    {
        let b = self.value(Key::B);
        let buffer = self.value(Key::Blocks) * b * self.value(Key::E);
        // The buffer's bound is that of `octets`, 2^24: a stream that no window can hold is refused with the profile.
        b <= self.value(Key::MaxN) && buffer <= 16_777_216
    }

    fn are_values(&self, keys: &[Key]) -> bool
        ensures { result ≡ are_values (value_in self.now) keys.now }
    {
        keys.iter().all(|key| self.is_value(*key))
    }

    fn is_value(&self, key: Key) -> bool
        ensures { result ≡ is_value key (value_in self.now key) }
    {
        let row = key.row();
        let value = self.value(key);
        row.least <= value && value <= row.greatest
    }
}

impl Default for Given {
    ghost use Rattle.std.specs.Prelude.{◌≡◌};
    ghost use Rattle.norm_base.specs.Given.{nothing_given};

    ghost is_default = { λ g. g ≡ nothing_given };

    fn default() -> Given {
        Given::new()
    }
}
