//! Laws of the definitions, which make the contracts of engines exact. They have no code.

ghost use Rattle.std.specs.Prelude.{◌≡◌, ◌⊎◌, ◌∷◌, [], ℕ, List, map, true, false, IsTrue};
ghost use Rattle.cil_store.specs.Common.{list_all, Meaning, meaning_of, Changes, Edit, Refusal, for_memory, Judgement, IsMeaningOf, IsPolicyOf, IsPolicyRefusal, accepts, is_too_long, Next, NextOfAll, Call, a_batch, an_edit, Reply, changed_by, refused, Step, Run, is_answered, Store, IsStore, empty};
ghost use Rattle.cil_specs.specs.Joined.{Placed};
ghost use Rattle.cil_specs.specs.Kept.{AreApart};
ghost use Rattle.cil_store_specs.specs.Limits.{IsWithinLimits, HasGoodTexts};
ghost use Rattle.cil_store_specs.specs.Script.{Command, Commands, End, ends, dump_edits, dump_commands, dump_text};
ghost use Rattle.cil_store_specs.specs.Session.{IsSession, Status, all_accepted};
ghost use Rattle.cil_store.specs.Laws.{EditsKeep, IsTakenBack, RunsKeep};

/// A store in which no module stands is in order, and edits and runs of calls lead from one in order to another.
pub fn stores_are_in_order()
    ensures empty { IsStore empty }
    ensures taken { EditsKeep IsStore }
    ensures run { RunsKeep IsStore }
{}

/// A store in which no module stands is within the limits, and edits and runs of calls lead from one within them to another.
pub fn stores_are_within_limits()
    ensures empty { IsWithinLimits empty }
    ensures taken { EditsKeep IsWithinLimits }
    ensures run { RunsKeep IsWithinLimits }
{}

/// Each text of a store spells a module, also one that isn't compiled: edits and runs of calls keep it so.
pub fn texts_spell_modules()
    ensures empty { HasGoodTexts empty }
    ensures taken { EditsKeep HasGoodTexts }
    ensures run { RunsKeep HasGoodTexts }
{}

/// A store in which no module stands means what no statements do, and a run leads from a store that means something to one that
/// does.
pub fn stores_mean_something()
    ensures empty { IsMeaningOf empty (meaning_of [] []) }
    ensures run { (old new : Store) (calls : List Call) (replies : List Reply) (meaning : Meaning) →
        IsMeaningOf old meaning → Run old calls replies new
        → (other : Meaning) × IsMeaningOf new other }
{}

/// In the policy of a store blocks, classes, commons and what is said of them stand in no optional, so that `kept_exists` and
/// `kept_is_good` of `cil_resolve` hold of it.
pub fn policies_are_apart()
    ensures { (store : Store) (policy : List Placed) → IsPolicyOf store policy → AreApart policy }
{}

/// A store has one meaning at most.
pub fn one_meaning()
    ensures { (store : Store) (meaning other : Meaning) →
        IsMeaningOf store meaning → IsMeaningOf store other → meaning ≡ other }
{}

/// A store in order is refused for one fault of its policy at most, the first.
pub fn one_policy_refusal()
    ensures { (store : Store) (refusal other : Refusal) → IsStore store
        → IsPolicyRefusal store refusal → IsPolicyRefusal store other → refusal ≡ other }
{}

/// A store that means something isn't refused.
pub fn no_meaning_beside_a_refusal()
    ensures { (store : Store) (meaning : Meaning) (refusal : Refusal) →
        IsMeaningOf store meaning → IsPolicyRefusal store refusal → ⊥ }
{}

/// A batch of a store in order has at most one judgement.
pub fn one_judgement()
    ensures { (store : Store) (edits : List Edit) (judgement other : Judgement) → IsStore store
        → Next store edits judgement → Next store edits other → judgement ≡ other }
{}

/// An edit, which is a batch of one, is never too long; and a batch of none is accepted and changes nothing.
pub fn batches_of_one_and_none()
    ensures one { (edit : Edit) → is_too_long (edit ∷ []) ≡ false }
    ensures none { (store : Store) (meaning : Meaning) →
        IsMeaningOf store meaning → Next store [] (accepts store) }
{}

/// Edits that are made at once on a store in order have at most one judgement.
pub fn one_judgement_at_once()
    ensures { (store : Store) (edits : List Edit) (judgement other : Judgement) → IsStore store
        → NextOfAll store edits judgement → NextOfAll store edits other → judgement ≡ other }
{}

/// Two runs of the same calls from a store in order, in which no reply is out of memory, agree in every reply and in the store.
pub fn one_run()
    ensures { (old new other : Store) (calls : List Call) (replies others : List Reply) →
        IsStore old → Run old calls replies new → Run old calls others other
        → IsTrue (list_all is_answered replies) → IsTrue (list_all is_answered others)
        → (replies ≡ others) × (new ≡ other) }
{}

/// The edits of a dump lead from a store in which no module stands to the one that was dumped: where all of them are accepted one
/// after another, in a run; where no command of the dump is refused, in a session; and where they are made as one batch, which a
/// store that means something accepts.
pub fn dumps_are_faithful()
    ensures run { (store new : Store) (changes : List Changes) → IsStore store
        → Run empty (map an_edit (dump_edits store)) (map changed_by changes) new → new ≡ store }
    ensures session { (store new : Store) (written : List ℕ) → IsStore store → IsWithinLimits store
        → IsSession (dump_text store) true empty new written all_accepted → new ≡ store }
    ensures at_once { (store : Store) (meaning : Meaning) →
        IsStore store → IsWithinLimits store → HasGoodTexts store → IsMeaningOf store meaning
        → Next empty (dump_edits store) (accepts store) }
{}

/// The dump of a store that means something is refused for memory alone. Its batch and a session over it lead from a store in which
/// no module stands to the one that was dumped; or else memory runs out, each refusal says so, and no module stands there still.
pub fn dumps_are_taken_back()
    ensures step { (store new : Store) (meaning : Meaning) (reply : Reply) →
        IsStore store → IsWithinLimits store → HasGoodTexts store → IsMeaningOf store meaning
        → Step empty (a_batch (dump_edits store)) reply new
        → ((changes : Changes) × (reply ≡ changed_by changes) × (new ≡ store))
        ⊎ ((reply ≡ refused for_memory) × (new ≡ empty)) }
    ensures session { (store new : Store) (meaning : Meaning) (written : List ℕ) (status : Status) →
        IsStore store → IsWithinLimits store → HasGoodTexts store → IsMeaningOf store meaning
        → (session : IsSession (dump_text store) true empty new written status)
        → IsTakenBack store new status session.answers }
{}

/// The dump of a store within the limits is a script of one batch, the edits of the dump, and of nothing else.
pub fn dumps_are_scripts()
    ensures commands { (store : Store) → IsWithinLimits store
        → Commands (dump_text store) (dump_commands store) ends }
    ensures alone { (store : Store) (commands : List Command) (end : End) → IsWithinLimits store
        → Commands (dump_text store) commands end
        → (commands ≡ dump_commands store) × (end ≡ ends) }
{}
