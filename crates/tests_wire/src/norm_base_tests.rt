//! Tests of `norm_base`: each call once, with enough memory.

ghost use Rattle.std.specs.Prelude.{◌≡◌};

use norm_base::{Datagram, Given, KEYS, Key, Memory, Mode, NodeId, Octets, Profile, Text};
use std::alloc::Global;
use std::process::Abort;
use std::test::Fail;

/// Returns the member with this id. The test fails if no member can have it.
fn member(rt: &impl Abort, n: u32) -> NodeId {
    NodeId::of(n).expect(rt, "a member's id")
}

/// Returns a profile with sender 1 and receivers 2 and 3.
fn two_receivers() -> Profile
    ensures { result.receivers ≡ 2 }
{
    Profile {
        receivers: 2,
        ..Profile::default()
    }
}

#[test]
fn the_least_and_the_greatest_id_name_no_member(rt: HostRuntime) {
    for (n, is_member) in [
        (0, false),
        (1, true),
        (4_294_967_294, true),
        (4_294_967_295, false),
    ] {
        assert!(rt; NodeId::of(n).is_some() == is_member, "at {n}");
    }
    assert!(rt; member(&rt, 7).number() == 7);
    assert!(rt; two_receivers().receiver(1) == member(&rt, 3));
}

/// Returns a datagram to which octets were appended, and that was then replaced in part.
fn written(alloc: Global) -> Result<Datagram, Memory> {
    let mut datagram = Datagram::new(alloc)?;
    datagram.push(b"hel");
    datagram.replace(1, b"al");
    Ok(datagram)
}

/// Clears a datagram and returns its room.
fn cleared_room(mut datagram: Datagram) -> usize {
    datagram.clear();
    datagram.room()
}

#[test]
fn a_datagram_keeps_its_octets(rt: HostRuntime) -> Result<(), Fail> {
    let datagram = written(rt.alloc())?;
    assert!(rt; datagram.room() == 1497);
    assert!(rt; datagram.bytes() == b"hal".as_slice());
    assert!(rt; cleared_room(datagram) == 1500);
    Ok(())
}

#[test]
fn wrappers_keep_their_octets(rt: HostRuntime) -> Result<(), Fail> {
    let octets = Octets::of(b"lo".to_vec(rt.alloc())?);
    assert!(rt; octets.bytes() == b"lo".as_slice());
    assert!(rt; octets.into_inner().as_slice() == b"lo".as_slice());
    let text = Text::of(String::from_str(rt.alloc(), "lo")?);
    assert!(rt; text.bytes() == b"lo".as_slice());
    assert!(rt; text.into_inner().as_str() == "lo");
    Ok(())
}

#[test]
fn each_key_is_found_by_its_name_at_its_place(rt: HostRuntime) {
    for (place, key) in KEYS.iter().enumerate() {
        assert!(rt; key.place() == place, "at {place}");
        let found = Key::named(key.row().name.as_bytes());
        assert!(rt; found == Some(*key), "at {place}");
    }
    assert!(rt; Key::named(b"E").is_none());
    assert!(rt; Key::Fabric.value_of(b"udp") == Some(2));
    assert!(rt; Key::Mode.value_of(b"udp").is_none());
    assert!(rt; Key::E.value_of(b"64").is_none());
}

/// Sets these values and no others.
fn given_of(values: &[(Key, u32)]) -> Given {
    let mut given = Given::default();
    for (key, value) in values {
        given.set(*key, *value);
    }
    given
}

fn profile_of(values: &[(Key, u32)]) -> Option<Profile> {
    Profile::of(&given_of(values))
}

#[test]
fn given_values_are_kept_for_their_keys(rt: HostRuntime) {
    let given = given_of(&[(Key::B, 4), (Key::Mode, 1)]);
    assert!(rt; given.has(Key::B));
    assert!(rt; !given.has(Key::E));
    assert!(rt; given.value(Key::MaxN) == 6);
}

/// Whether these values make a profile of mode `Drop` with this `max_n`.
fn drops_with(values: &[(Key, u32)], max_n: u8) -> bool {
    match profile_of(values) {
        Some(profile) => profile.max_n == max_n && profile.mode == Mode::Drop,
        None => false,
    }
}

#[test]
fn given_values_make_a_profile_within_the_ranges_and_rules(rt: HostRuntime) {
    assert!(rt; drops_with(&[(Key::B, 4), (Key::Mode, 1)], 6));
    for (key, value) in [
        (Key::E, 63),
        (Key::B, 201),
        (Key::MaxN, 3),
        (Key::Fabric, 3),
    ] {
        let values = [(Key::B, 4), (Key::Mode, 1), (key, value)];
        assert!(rt; profile_of(&values).is_none(), "{value}");
    }
    for (e, is_some) in [(1024, true), (1025, false)] {
        let values = [(Key::B, 64), (Key::Blocks, 256), (Key::E, e)];
        assert!(rt; profile_of(&values).is_some() == is_some, "{e}");
    }
}
