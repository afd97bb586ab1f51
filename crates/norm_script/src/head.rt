//! Reads a script's head: the lines before the first command, which set keys. The reader of scripts calls [`read_head`], and then
//! [`profile`](Head::profile).

ghost use Rattle.std.specs.Prelude.{◌≡◌, ◌≤◌, IfOk, OnOk, is_some, unwrap_or};
ghost use Rattle.norm_base.specs.Given.{value_in};
ghost use Rattle.norm_script.specs.Head.{nothing_set, refuse, setting_of_key, set_once, head_after, head_line, head_from, given_by, last_set, broken_rule, rule_refusal, earlier, profile_of};
ghost use Rattle.norm_script.specs.Text.{text_lines};

use crate::lines::first_line;
use crate::meaning::{Meaning, meaning_of};
use crate::refusal::{Refusal, Why};
use crate::setting::Setting;
use norm_base::{Given, Key, Memory, Profile};
use std::alloc::Global;
use std::marker::Model;

/// The most lines of a script, with empty ones and comments.
// Our own choice: twice as many as commands, for settings, comments and empty lines. A line more is refused with `ManyLines`.
pub(crate) const MOST_LINES: u32 = 8192;

/// The settings of the lines that were taken in, and the first of them that is refused. Each line is taken in with [`take_line`](Head::take_line).
#[derive(Drop)]
pub(crate) struct Head {
    settings: Vec<Setting>,
    refused: Option<Refusal>,
}

impl Model for Head {
    ghost use Rattle.norm_script.specs.Head.{Head as HeadSpec};

    ghost Value = { HeadSpec };

    ghost view = { λ h. record { settings = h.settings.items; refused = h.refused } };
}

/// It walks the list, which has a key at most once.
fn setting_of_key(settings: &[Setting], key: Key) -> Option<Setting>
    ensures { result ≡ setting_of_key key settings.now }
{
    for setting in settings {
        if setting.key.place() == key.place() {
            return Some(*setting);
        }
    }
    None
}

impl Head {
    /// It takes no memory.
    pub(crate) fn new(alloc: Global) -> Head
        ensures { result ≡ nothing_set }
    {
        Head {
            settings: Vec::new(alloc),
            refused: None,
        }
    }

    /// Refuses a line. Does nothing if a line was refused before.
    fn refuse(&mut self, line: u32, why: Why)
        ensures { self.new ≡ refuse self.old line why }
    {
        if self.refused.is_none() {
            self.refused = Some(Refusal { line, why });
        }
    }

    /// Sets a key. If an earlier line has set it, refuses this line instead.
    fn set_once(&mut self, new: Setting) -> Result<(), Memory>
        ensures { OnOk result (self.new ≡ set_once self.old new (setting_of_key new.key self.old.settings)) }
    {
        if let Some(old) = setting_of_key(&self.settings, new.key) {
            self.refuse(
                new.line,
                Why::Twice {
                    key: new.key,
                    line: old.line,
                },
            );
            return Ok(());
        }
        match self.settings.push(new) {
            Ok(()) => Ok(()),
            Err(_) => Err(Memory),
        }
    }

    /// Takes in what line `n` means. Returns `false` if it is a command or a name, which ends the head and changes nothing.
    pub(crate) fn take(&mut self, n: u32, meaning: Result<Meaning, Why>) -> Result<bool, Memory>
        ensures { IfOk result (λ taken. let next = head_after self.old n meaning in
            (taken ≡ is_some next) × (self.new ≡ unwrap_or next self.old)) }
    {
        match meaning {
            Ok(Meaning::Nothing) => Ok(true),
            Ok(Meaning::Set { key, value }) => {
                self.set_once(Setting {
                    key,
                    value,
                    line: n,
                })?;
                Ok(true)
            }
            // The two rules across keys look at the settings before the first command, also if that command is refused for its producer.
            Ok(Meaning::Command { .. }) => Ok(false),
            Err(why) => {
                self.refuse(n, why);
                Ok(true)
            }
        }
    }

    /// Takes in line `n`. Returns `false` if the head ends before it: it is a command, or a line too many.
    fn take_line(&mut self, alloc: Global, n: u32, line: &[u8]) -> Result<bool, Memory>
        ensures { IfOk result (λ taken. let next = head_line self.old n line.now in
            (taken ≡ is_some next) × (self.new ≡ unwrap_or next self.old)) }
    {
        if n > MOST_LINES {
            return Ok(false);
        }
        let meaning = meaning_of(alloc, line)?;
        self.take(n, meaning)
    }

    /// Returns the profile that the settings make. A key that none sets has its default.
    ///
    /// # Errors
    ///
    /// The earliest line without meaning. If the settings break a rule across keys, this counts as a refusal of the last line that sets a key.
    pub(crate) fn profile(&self) -> Result<Profile, Refusal>
        ensures { result ≡ profile_of self.now }
    {
        let given = given_by(&self.settings);
        match Profile::of(&given) {
            Some(profile) => match self.refused {
                None => Ok(profile),
                Some(refused) => Err(refused),
            },
            None => {
                let rule = Refusal {
                    line: last_set(&self.settings),
                    why: broken_rule(&given),
                };
                match self.refused {
                    None => Err(rule),
                    // Of two reasons the one of the earlier line, as a reader goes through a script.
                    Some(refused) => Err(earlier(refused, rule)),
                }
            }
        }
    }
}

/// Any key without a setting keeps its default.
fn given_by(settings: &[Setting]) -> Given
    ensures { result ≡ given_by settings.now }
{
    let mut given = Given::new();
    for setting in settings {
        given.set(setting.key, setting.value);
    }
    given
}

/// The line of the last setting, or 0 if there is none.
fn last_set(settings: &[Setting]) -> u32
    ensures { result ≡ last_set settings.now }
{
    let mut line = 0;
    for setting in settings {
        line = setting.line;
    }
    line
}

/// Which of the two rules across keys is broken. Call it only if one is.
fn broken_rule(given: &Given) -> Why
    ensures { result ≡ broken_rule (value_in given.now) }
{
    let b = given.value(Key::B);
    let max_n = given.value(Key::MaxN);
    if max_n < b {
        return Why::MaxBelowB { max_n, b };
    }
    Why::Buffer {
        blocks: given.value(Key::Blocks),
        b,
        e: given.value(Key::E),
    }
}

/// The refusal of the earlier line, or `b` if both are of the same line.
fn earlier(a: Refusal, b: Refusal) -> Refusal
    ensures { result ≡ earlier a b }
{
    if a.line < b.line { a } else { b }
}

/// A head, and the text after it, which begins with line `next`.
#[derive(Drop)]
pub(crate) struct Begun<'a> {
    pub(crate) head: Head,
    pub(crate) next: u32,
    pub(crate) rest: &'a [u8],
}

/// Reads a script up to its first command, or up to its end. A line beyond the most lines ends the head too. A refused line does not.
///
/// # Errors
///
/// `Memory` if memory runs out.
pub(crate) fn read_head(alloc: Global, text: &[u8]) -> Result<Begun<'_>, Memory>
    ensures head { IfOk result (λ begun. head_from nothing_set 1 (text_lines text.now) ≡
        record { head = begun.head; next = begun.next; rest = text_lines begun.rest.now }) }
    ensures few { IfOk result (λ begun. begun.next ≤ 8193) }
{
    let mut head = Head::new(alloc);
    let mut rest = text;
    let mut n = 1;
    // Proof: the label names the loop for its invariant.
    'lines: while !rest.is_empty() {
        let (line, more) = first_line(rest);
        if !head.take_line(alloc, n, line)? {
            return Ok(Begun {
                head,
                next: n,
                rest,
            });
        }
        rest = more;
        n += 1;
    }
    Ok(Begun {
        head,
        next: n,
        rest,
    })
}
