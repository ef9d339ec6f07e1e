//! Laws of the definitions, which make the contract of a session exact. They have no code.

ghost use Rattle.std.specs.Prelude.{◌≡◌, ◌++◌, ℕ, Bool, true, List};
ghost use Rattle.cil_specs.specs.Meaning.{Meaning};
ghost use Rattle.cil_store_specs.specs.Limits.{IsWithinLimits, HasGoodTexts};
ghost use Rattle.cil_session.specs.Common.{IsMeaningOf, Command, End, Commands, dump_text, BeginsWith, IsSession, Store, IsStore, empty};
ghost use Rattle.cil_store_specs.specs.Session.{Status};
ghost use Rattle.cil_store.specs.Laws.{IsTakenBack};
ghost use Rattle.cil_session.specs.Laws.{NeverForMemory, SessionsKeep};

/// A script has at most one list of commands, and at most one end.
pub fn one_script()
    ensures { (script : List ℕ) (commands others : List Command) (end last : End) →
        Commands script commands end → Commands script others last
        → (commands ≡ others) × (end ≡ last) }
{}

/// The commands with which a script begins are the first of its commands.
pub fn begins_with_its_first()
    ensures { (script : List ℕ) (commands all : List Command) (end : End) →
        BeginsWith script commands
        → Commands script all end → (others : List Command) × (all ≡ commands ++ others) }
{}

/// What a store has before a session it has after it: it is in order, it is within the limits, its texts spell modules, and it means
/// something.
pub fn sessions_keep_stores()
    ensures ordered { SessionsKeep IsStore }
    ensures within_limits { SessionsKeep IsWithinLimits }
    ensures good_texts { SessionsKeep HasGoodTexts }
    ensures meaning { (given : List ℕ) (ended : Bool) (old new : Store) (written : List ℕ) →
        (status : Status) (meaning : Meaning) → IsMeaningOf old meaning
        → IsSession given ended old new written status → (other : Meaning) × IsMeaningOf new other }
{}

/// The dump of what a session leaves that starts where no module stands is taken back: a session over it, which starts so too, leaves
/// the same store; or else memory runs out, each refusal says so, and no module stands there still.
pub fn sessions_are_taken_back()
    ensures { (given written text : List ℕ) (ended : Bool) (store new : Store) →
        (status last : Status) → IsSession given ended empty store written status
        → (session : IsSession (dump_text store) true empty new text last)
        → IsTakenBack store new last session.answers }
{}

/// Two sessions over the same bytes, from a store in order, in which no answer is that memory ran out, agree in what is written, in the
/// store and in the status.
pub fn one_session()
    ensures { (given : List ℕ) (ended also : Bool) (old new other : Store) →
        (written text : List ℕ) (status last : Status) → IsStore old
        → (session : IsSession given ended old new written status)
        → (second : IsSession given also old other text last)
        → NeverForMemory session.answers → NeverForMemory second.answers
        → (written ≡ text) × (new ≡ other) × (status ≡ last) }
{}
