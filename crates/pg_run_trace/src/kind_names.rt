//! The names of the kinds of events.

ghost use Rattle.std.specs.Prelude.{◌≡◌, Some};
ghost use Rattle.std.specs.List.{find};
ghost use Rattle.std.specs.Str.{bytes_eq};
ghost use Rattle.pg_run_trace.specs.KindNames.{all_kinds, kind_named, kind_text};

use crate::turn::TurnKind;
use std::fmt;

/// Each kind of event once.
const KINDS: [TurnKind; 23] = [
    TurnKind::Start,
    TurnKind::Exit,
    TurnKind::Create,
    TurnKind::Join,
    TurnKind::MutexInit,
    TurnKind::Lock,
    TurnKind::Trylock,
    TurnKind::Unlock,
    TurnKind::MutexDestroy,
    TurnKind::CondInit,
    TurnKind::Wait,
    TurnKind::Wake,
    TurnKind::Signal,
    TurnKind::Broadcast,
    TurnKind::CondDestroy,
    TurnKind::BarrierInit,
    TurnKind::Arrive,
    TurnKind::Leave,
    TurnKind::BarrierDestroy,
    TurnKind::Out,
    TurnKind::Putchar,
    TurnKind::Load,
    TurnKind::Store,
];

/// The one of these kinds that has a name.
fn kind_among(kinds: &[TurnKind], name: &str) -> Option<TurnKind>
    ensures { result ≡ find (λ k. bytes_eq (kind_text k) name.now) kinds.now }
{
    for kind in kinds {
        if kind.name() == name {
            return Some(*kind);
        }
    }
    None
}

impl TurnKind {
    /// The name of the kind, as it is printed.
    pub fn name(self) -> &'static str
        ensures name { result.now ≡ kind_text self }
    {
        match self {
            TurnKind::Start => "start",
            TurnKind::Exit => "exit",
            TurnKind::Create => "create",
            TurnKind::Join => "join",
            TurnKind::MutexInit => "mutex-init",
            TurnKind::Lock => "lock",
            TurnKind::Trylock => "trylock",
            TurnKind::Unlock => "unlock",
            TurnKind::MutexDestroy => "mutex-destroy",
            TurnKind::CondInit => "cond-init",
            TurnKind::Wait => "wait",
            TurnKind::Wake => "wake",
            TurnKind::Signal => "signal",
            TurnKind::Broadcast => "broadcast",
            TurnKind::CondDestroy => "cond-destroy",
            TurnKind::BarrierInit => "barrier-init",
            TurnKind::Arrive => "arrive",
            TurnKind::Leave => "leave",
            TurnKind::BarrierDestroy => "barrier-destroy",
            TurnKind::Out => "out",
            TurnKind::Putchar => "putchar",
            TurnKind::Load => "load",
            TurnKind::Store => "store",
        }
    }

    /// The kind of a name; none where no kind has it.
    #[tactic(auto, unfolding(crate::specs::KindNames::kind_named))]
    pub fn named(name: &str) -> Option<TurnKind>
        ensures kind { result ≡ kind_named name.now }
    {
        kind_among(&KINDS, name)
    }
}

impl fmt::Display for TurnKind {
    ghost output = { λ kind. Some (kind_text kind) };

    fn fmt<W: fmt::Write>(&self, f: &mut fmt::Formatter<W>) -> fmt::Result {
        f.write_str(self.name())
    }
}
