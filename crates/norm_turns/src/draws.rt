//! The draws of deliveries, which decide how long receivers back off.

ghost use Rattle.std.specs.Prelude.{◌≡◌};
ghost use Rattle.norm_journal.specs.Draws.{first_draws, next_draw, draws_after};

use norm_base::Profile;
use rand_core::SeedableRng;
use rand_core::utils::NextWord;
use rand_pcg::Lcg64Xsh32;

/// The draws at the beginning of a run, from the profile's `chance`. Receivers that run alone with one `chance` begin with the same ones.
#[tactic(auto, unfolding(norm_journal::specs::Draws::first_draws))]
pub fn first_draws(profile: &Profile) -> Lcg64Xsh32
    ensures { result ≡ first_draws profile.now }
{
    // One more than the seed of the network by chance: with the same one the back-offs of receivers would follow what is lost.
    Lcg64Xsh32::seed_from_u64(u64::from(profile.chance) + 1)
}

/// Returns the next draw. A run uses one for each datagram that it delivers to a receiver.
#[tactic(auto, unfolding(norm_journal::specs::Draws::next_draw, norm_journal::specs::Draws::draws_after))]
pub fn next_draw(draws: &mut Lcg64Xsh32) -> u32
    ensures word { result ≡ next_draw draws.old }
    ensures rest { draws.new ≡ draws_after draws.old }
{
    draws.next_word()
}
