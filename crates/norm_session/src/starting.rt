//! The beginning of a run: [`Run::start`].

ghost use Rattle.std.specs.Prelude.{◌≡◌, ◌⊎◌, ◌∷◌, [], IfOk, IfErr, OnOk, OnErr};
ghost use Rattle.norm_base.specs.Network.{Network, Starts};
ghost use Rattle.norm_journal.specs.Places.{Between};
ghost use Rattle.norm_journal.specs.declared.event.Event.TheVariants as event;
ghost use Rattle.norm_turns.specs.Causes.{NetworkCause};
ghost use Rattle.norm_session.specs.Context.{Context};
ghost use Rattle.norm_session.specs.Noting.{kept_of};
ghost use Rattle.norm_session.specs.SoFar.{At};
ghost use Rattle.norm_session.specs.Starting.{IsBegun, local_of};

use crate::left::Left;
use crate::noting::KeptJournal;
use crate::run::{Run, sender_node};
use norm_base::{Fabric, Local, Memory, Moment, Profile};
use norm_journal::Totals;
use norm_script::Script;
use norm_text::Line;
use norm_turns::{SessionFault, first_draws};
use norm_world::World;
use std::alloc::Global;

fn local_of(profile: &Profile, alone: bool) -> Local
    ensures { result ≡ local_of alone profile.now }
{
    if alone {
        Local::One(sender_node(profile))
    } else {
        Local::All
    }
}

/// The journal of a run at its beginning. If it is kept, it has the network's start already.
fn begun_journal(alloc: Global, alone: bool) -> Result<KeptJournal, Memory>
    ensures { IfOk result (λ journal. journal ≡ kept_of alone (event.Start ∷ [])) }
{
    let mut journal = KeptJournal::new(alloc, alone);
    // Before the network starts: after it started, the journal has to say so, and to write that takes memory.
    journal.push_start()?;
    Ok(journal)
}

/// Starts the network. Call it right after [`Run::begun`].
fn start_network<F: Fabric>(
    script: &Script,
    alone: bool,
    fabric: &mut F,
) -> Result<(), SessionFault>
    ensures starts { OnOk result (Starts (F.told fabric.old) (F.told fabric.new) script.now.profile (local_of alone script.now.profile)) }
    ensures same { OnErr result (F.told fabric.new ≡ F.told fabric.old) }
    ensures why { IfErr result (λ fault. (fault ≡ SessionFault.Memory) ⊎ (fault ≡ SessionFault.Fabric)) }
    ensures cause { NetworkCause result (F.fault_count fabric.old) (F.fault_count fabric.new) }
{
    fabric.start(&script.profile, local_of(&script.profile, alone))?;
    Ok(())
}

impl Run {
    /// A run at its beginning. If its journal is kept, it has the network's start already: start the network next.
    fn begun(alloc: Global, script: &Script, alone: bool) -> Result<Run, Memory>
        ensures { IfOk result (λ run. (x : Context) (network : Network) → IsBegun x script.now alone network → At x run Between network x.written) }
    {
        let profile = script.profile;
        let draws = first_draws(&profile);
        let totals = Totals::new();
        let left = Left::all(alloc, &script.lines)?;
        let journal = begun_journal(alloc, alone)?;
        let line = Line::new(alloc);
        // Proof: the nodes come last, since each statement is dear while they are owned.
        let world = World::new(alloc, &profile)?;
        Ok(Run {
            alloc,
            profile,
            alone,
            world,
            journal,
            line,
            totals,
            draws,
            turn: 0,
            now: Moment(0),
            left,
            waiting: None,
        })
    }

    /// Starts the network, with all members or with the sender alone, and begins a run of the script.
    ///
    /// # Errors
    ///
    /// `Fabric` if the network failed, or `Memory`.
    pub fn start<F: Fabric>(
        alloc: Global,
        script: &Script,
        alone: bool,
        fabric: &mut F,
    ) -> Result<Run, SessionFault>
        ensures starts { OnOk result (Starts (F.told fabric.old) (F.told fabric.new) script.now.profile (local_of alone script.now.profile)) }
        ensures goes { IfOk result (λ run. (x : Context) → IsBegun x script.now alone (F.told fabric.new) → At x run Between (F.told fabric.new) x.written) }
        ensures same { OnErr result (F.told fabric.new ≡ F.told fabric.old) }
        ensures why { IfErr result (λ fault. (fault ≡ SessionFault.Memory) ⊎ (fault ≡ SessionFault.Fabric)) }
        ensures cause { NetworkCause result (F.fault_count fabric.old) (F.fault_count fabric.new) }
    {
        let run = Run::begun(alloc, script, alone)?;
        // Proof: no `?` here, since each statement is dear while a run is owned.
        let started = start_network(script, alone, fabric);
        started.and(Ok(run))
    }
}
