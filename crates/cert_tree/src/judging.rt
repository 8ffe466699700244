//! Claims that are judged one after the other.

ghost use Rattle.std.specs.Prelude.{◌≡◌, ◌≢◌, ◌+◌, ◌^◌, ◌<◌, ◌≤◌, [], None, Some, Ok, Err, IfErr, IfOk, OnErr, OnOk};
ghost use Rattle.cert_tree.specs.declared.judging.Refusal.{Refusal as ARefusal};
ghost use Rattle.cert_tree.specs.declared.judging.Cause.TheVariants as causes;
ghost use Rattle.cert_tree.specs.Judgings.{IsFedCertified, IsFedNone, IsKept, Refuses, Takes, begun_at, standing_of};

use crate::claim_tree::ClaimTree;
use crate::walk::{Walk, go_on, is_next_true, owes_some};
use std::alloc::{AllocError, Global};

/// Why a claim is refused.
#[derive(Clone, Copy, Debug, PartialEq, Eq)]
pub enum Cause {
    /// It is false of its node.
    False,
    /// No claim is owed.
    Over,
    /// A claim is owed and there is none.
    Short,
}

/// A claim that is refused, counted from 1.
#[derive(Clone, Copy, Debug, PartialEq, Eq)]
pub struct Refusal {
    pub number: u64,
    pub cause: Cause,
}

/// How far claims were judged. It holds the open nodes that begin the one owed next, and nothing
/// else of what was judged, so it takes no memory after it was begun.
#[derive(Drop)]
pub struct Judging<K: Copy> {
    pub walk: Walk<K>,
    pub taken: u64,
    pub refusal: Option<Refusal>,
    /// The room of what may be found of a node while a claim of it is judged.
    pub found: Option<K>,
}

/// The root alone is owed. All memory is taken here.
pub fn begin<T: ClaimTree>(alloc: Global, it: &T) -> Result<Judging<T::Known>, AllocError>
    ensures standing { IfOk result (λ judging. standing_of (T.ways it.now) judging
        ≡ begun_at (T.root it.now)) }
    ensures kept { IfOk result (IsKept (T.tree it.now) (T.is_of it.now) (T.ways it.now)
        (T.begins it.now) (T.refutes it.now)) }
{
    let levels = Vec::with_capacity(alloc, it.depth())?;
    let root = Some(it.first());
    Ok(Judging {
        walk: Walk { levels, root },
        taken: 0,
        refusal: None,
        found: None,
    })
}

/// Judges a claim of the node that is owed next. It is taken where it is true of it; after a
/// refusal every call answers the same.
pub fn feed<T: ClaimTree>(
    it: &T,
    judging: &mut Judging<T::Known>,
    claim: T::Claim,
) -> Result<(), Refusal>
    requires kept { IsKept (T.tree it.now) (T.is_of it.now) (T.ways it.now) (T.begins it.now)
        (T.refutes it.now) judging.old }
    requires few { judging.old.taken < 2 ^ 40 }
    ensures kept { IsKept (T.tree it.now) (T.is_of it.now) (T.ways it.now) (T.begins it.now)
        (T.refutes it.now) judging.new }
    ensures taken { judging.old.refusal ≡ None
        → OnOk result (Takes (T.tree it.now) (standing_of (T.ways it.now) judging.old) claim
        (standing_of (T.ways it.now) judging.new)) }
    ensures refused { judging.old.refusal ≡ None → IfErr result (λ refused.
        Refuses (T.tree it.now) (standing_of (T.ways it.now) judging.old) claim refused
        (standing_of (T.ways it.now) judging.new)) }
    ensures again { (refused : ARefusal) → judging.old.refusal ≡ Some refused →
        (result ≡ Err refused) × (judging.new ≡ judging.old) }
{
    if let Some(refused) = judging.refusal {
        return Err(refused);
    }
    judging.found = None;
    let Some(told) = is_next_true(it, &mut judging.walk, claim, &mut judging.found) else {
        return refuse(judging, Cause::Over);
    };
    if !told {
        return refuse(judging, Cause::False);
    }
    go_on(it, &mut judging.walk, it.is_open(claim), &judging.found);
    judging.taken += 1;
    Ok(())
}

/// Keeps that a claim is refused.
fn refuse<K: Copy>(judging: &mut Judging<K>, cause: Cause) -> Result<(), Refusal>
    requires { judging.old.taken < 2 ^ 40 }
    ensures answer { result ≡ Err (record { number = judging.old.taken + 1; cause = cause }) }
    ensures kept { judging.new ≡ record judging.old
        { refusal = Some (record { number = judging.old.taken + 1; cause = cause }) } }
{
    let refused = Refusal {
        number: judging.taken + 1,
        cause,
    };
    judging.refusal = Some(refused);
    Err(refused)
}

/// Whether claims may end here: none was refused and none is owed. Then no leaf refutes.
pub fn finish<T: ClaimTree>(it: &T, judging: &Judging<T::Known>) -> Result<(), Refusal>
    requires kept { IsKept (T.tree it.now) (T.is_of it.now) (T.ways it.now) (T.begins it.now)
        (T.refutes it.now) judging.now }
    requires few { judging.now.taken ≤ 2 ^ 40 }
    ensures accepted { judging.now.refusal ≡ None → (standing_of (T.ways it.now) judging.now).owed
        ≡ [] → result ≡ Ok tt }
    ensures short { judging.now.refusal ≡ None → (standing_of (T.ways it.now) judging.now).owed ≢ []
        → result ≡ Err (record { number = judging.now.taken + 1; cause = causes.Short }) }
    ensures again { (refused : ARefusal) → judging.now.refusal ≡ Some refused → result
        ≡ Err refused }
    ensures shown { OnOk result ((leaf : T.Leaf) → T.refutes it.now leaf → ⊥) }

    // Where all claims since it was begun were judged by it: they are certified, or not.
    ensures certified { OnOk result
        (IsFedCertified (T.tree it.now) (T.root it.now) (standing_of (T.ways it.now) judging.now)) }
    ensures uncertified { OnErr result
        (IsFedNone (T.tree it.now) (T.root it.now) (standing_of (T.ways it.now) judging.now)) }
{
    if let Some(refused) = judging.refusal {
        return Err(refused);
    }
    if owes_some(it, &judging.walk) {
        return Err(Refusal {
            number: judging.taken + 1,
            cause: Cause::Short,
        });
    }
    Ok(())
}
