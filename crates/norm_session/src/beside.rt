//! Work beside the producers: [`Work`].

ghost use Rattle.std.specs.Prelude.{◌≡◌};

/// What a session does while another thread runs the producers, or after they ran if that thread cannot be started.
// Proof: what is lent for the work stands behind a type parameter. A scope whose closures hold the loans themselves is dear to prove.
pub(crate) trait Work {
    type Given;

    ghost can_run: { Self → Type 0 };

    ghost run_gives: { Self → Self.Given → Type 0 };

    fn run(self) -> Self::Given
        requires { can_run self }
        ensures { run_gives self result };
}

/// A borrowed closure as [`Work`]. It returns the loan with the closure's result.
#[derive(Drop)]
pub(crate) struct Lent<'a, F> {
    pub(crate) f: &'a mut F,
}

impl<'a, F: FnMut() -> A, A> Work for Lent<'a, F> {
    type Given = (&'a mut F, A);

    ghost can_run = { λ t. F.pre t.f.now };

    ghost run_gives = { λ t r. (r.0.ghost_name ≡ t.f.ghost_name) × F.step t.f.now r.1 r.0.now };

    fn run(self) -> (&'a mut F, A) {
        let Lent { f } = self;
        let made = f();
        (f, made)
    }
}

/// Does nothing. This use ends a loan: what `lent` borrows is the caller's again.
pub(crate) fn take_back<T>(lent: &mut T)
    ensures { lent.new ≡ lent.old }
{}
