//! What standard error says to words that ask for help: what the program has, or what one command takes. `reason` prints it.

ghost use Rattle.std.specs.Prelude.{◌≡◌, ◌∷◌, Some, map, string_bytes};
ghost use Rattle.std.specs.List.{list_any};
ghost use Rattle.std.specs.Fmt.{DisplaysOnOk};
ghost use Rattle.norm_endings.specs.Usage.{is_help, is_version, asks_help, asks_version, send_usage, recv_usage, gather_usage, usage_of, usage_for};

use std::fmt;

// Each text has at most 24 lines of 79 letters, which a terminal shows at once.
const PROGRAM: &str = "usage: normd COMMAND ..

  session   runs the script that the input is, with all its members
  show      shows the datagrams of the input, one a line in hexadecimal
  generate  writes a script that is made of a number
  send      runs the sender of a profile, with the input as its script
  recv      runs one receiver of a profile
  hub       hands on what the members of a profile send
  gather    hears several senders, by the datagrams of the input
  relay     relays between two sessions, by the events of the input
  mirror    sends the folder that the input names to all members

normd COMMAND --help says what a command takes.";

const SESSION: &str = "usage: normd session [--chance N] [--turns N] [--tail T]

Runs the script that the input is, with all its members, and prints the
journal.

  --chance N  the seed of the network, 0 to 4294967295, in place of the
              script's
  --turns N   the most turns, 1 to 4000000, in place of the script's
  --tail T    after turn T, 1 to 4000000, no command comes and nothing is
              lost, until no watermark is open";

const SHOW: &str = "usage: normd show

Shows the datagrams of the input, one a line in hexadecimal, or why each is
refused. It takes no word.";

const GENERATE: &str = "usage: normd generate N

Writes the script that is made of N, a number from 0 to 4294967295.";

const SEND: &str = "usage: normd send PROFILE [--instance I] [--group ADDRESS[:PORT]]

Runs the sender alone, with the input as its script, and prints the journal.

  PROFILE       the path of the profile
  --instance I  the first instance, 0 to 65535, in place of the profile's
  --group ADDRESS[:PORT]
                a broadcast address, four numbers with points, and a port
                from 1024 to 65534: all members are there, and no hub";

const RECV: &str = "usage: normd recv PROFILE NODE [--group ADDRESS[:PORT]]

Runs one receiver, prints what it hands up, and puts the files of that here.

  PROFILE       the path of the profile
  NODE          the receiver, a node of the profile, 1 to 4294967294
  --group ADDRESS[:PORT]
                a broadcast address, four numbers with points, and a port
                from 1024 to 65534: all members are there, and no hub";

const HUB: &str = "usage: normd hub PROFILE

Hands on what the members of a profile send.

  PROFILE       the path of the profile";

const GATHER: &str = "usage: normd gather PROFILE NODE ..

Hears one to eight senders, by the datagrams of the input, and prints what
each receiver hands up and would send. It opens no sockets.

  PROFILE       the path of a profile
  NODE          a receiver of it, 1 to 4294967294";

const RELAY: &str = "usage: normd relay UP NODE DOWN [--instance I]

Relays between two sessions, by the events of the input, and prints what it
would send. It opens no sockets.

  UP            the path of the profile above
  NODE          a receiver of it, 1 to 4294967294
  DOWN          the path of the profile below
  --instance I  the first instance below, 0 to 65535, in place of the
                profile's";

const MIRROR: &str = "usage: normd mirror

Sends the folder that the input names, and puts each receiver's copies of its
files. It takes no word.";

fn is_help(word: &[u8]) -> bool
    ensures { result ≡ is_help word.now }
{
    word == b"--help".as_slice() || word == b"-h".as_slice() || word == b"help".as_slice()
}

fn is_version(word: &[u8]) -> bool
    ensures { result ≡ is_version word.now }
{
    word == b"--version".as_slice()
}

fn some_is_help(words: &[String]) -> bool
    ensures { result ≡ list_any (λ word. is_help (string_bytes word)) words.now }
{
    words.iter().any(|word| is_help(word.as_bytes()))
}

/// Whether one of the words asks for help. Call it only if they are refused: a profile may have such a name.
pub(crate) fn asks_help(words: &[String]) -> bool
    ensures { result ≡ asks_help (map string_bytes words.now) }
{
    some_is_help(words)
}

fn some_is_version(words: &[String]) -> bool
    ensures { result ≡ list_any (λ word. is_version (string_bytes word)) words.now }
{
    words.iter().any(|word| is_version(word.as_bytes()))
}

/// Whether one of the words asks for the version.
pub(crate) fn asks_version(words: &[String]) -> bool
    ensures { result ≡ asks_version (map string_bytes words.now) }
{
    some_is_version(words)
}

fn say_send<W: fmt::Write>(f: &mut fmt::Formatter<W>) -> fmt::Result
    ensures { DisplaysOnOk W.write_str_gives f.old result (Some send_usage) f.new }
{
    f.write_str(SEND)
}

fn say_recv<W: fmt::Write>(f: &mut fmt::Formatter<W>) -> fmt::Result
    ensures { DisplaysOnOk W.write_str_gives f.old result (Some recv_usage) f.new }
{
    f.write_str(RECV)
}

fn say_gather<W: fmt::Write>(f: &mut fmt::Formatter<W>) -> fmt::Result
    ensures { DisplaysOnOk W.write_str_gives f.old result (Some gather_usage) f.new }
{
    f.write_str(GATHER)
}

/// Says what a command takes, or what the program has if there is no such command.
fn say_usage_of<W: fmt::Write>(word: &[u8], f: &mut fmt::Formatter<W>) -> fmt::Result
    ensures { DisplaysOnOk W.write_str_gives f.old result (Some (usage_of word.now)) f.new }
{
    if word == b"session".as_slice() {
        return f.write_str(SESSION);
    }
    if word == b"show".as_slice() {
        return f.write_str(SHOW);
    }
    if word == b"generate".as_slice() {
        return f.write_str(GENERATE);
    }
    if word == b"send".as_slice() {
        return say_send(f);
    }
    if word == b"recv".as_slice() {
        return say_recv(f);
    }
    if word == b"hub".as_slice() {
        return f.write_str(HUB);
    }
    if word == b"gather".as_slice() {
        return say_gather(f);
    }
    if word == b"relay".as_slice() {
        return f.write_str(RELAY);
    }
    if word == b"mirror".as_slice() {
        return f.write_str(MIRROR);
    }
    f.write_str(PROGRAM)
}

/// Says what the command takes that the first word names.
pub(crate) fn say_usage<W: fmt::Write>(words: &[String], f: &mut fmt::Formatter<W>) -> fmt::Result
    ensures { DisplaysOnOk W.write_str_gives f.old result (Some (usage_for (map string_bytes words.now))) f.new }
{
    match words {
        [] => f.write_str(PROGRAM),
        [word, ..] => say_usage_of(word.as_bytes(), f),
    }
}
