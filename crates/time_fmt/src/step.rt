//! The loop over the steps of a text.
ghost use Rattle.std.specs.Prelude.{◌≡◌, Bool, Err, IfErr, IfOk, IfSome, IsTrue, MatchOption, map};
ghost use Rattle.time_below.specs.Tree.{Tree, all_of, trees};
ghost use Rattle.time_below.specs.Width.{tree_width, trees_width};
ghost use Rattle.time_fmt.specs.Guarantee.{AppendsTree};
ghost use Rattle.time_fmt.specs.Sink.{Fits};
ghost use Rattle.time_fmt.specs.Steps.{IsWrittenUpTo};

use crate::refused::Refused;
use crate::sink::Sink;
use time_provide::ComponentProvider;

/// A step of a text: a part of it that is written without the others, as a node of a description, a
/// step of a plan, or an item that C describes.
///
/// `B`, `is_valid` and `has_room` are for the items of C, which are numbers that the caller chose:
/// they name bytes that stand beside all of them, they may be invalid, and nothing says that their
/// texts fit. Nodes and the steps of plans have nothing beside them, are all valid, and fit.
pub trait WriteStep<B: Copy>: Sized {
    /// What it describes, if it is valid.
    ghost tree_of: { B → Self → Tree };

    /// Whether it is valid. No other is written.
    ghost is_valid: { B → Self → Bool };

    /// Whether its maximum length fits before it is written. Where it may not, the step asks for
    /// room itself.
    ghost has_room: { Bool };

    /// Appends the text of a step of a frequent kind, and returns its refusal, if it is refused.
    /// For any other step writes nothing and returns `None`.
    fn write_inline<S: Sink, V: ComponentProvider>(
        &self,
        beside: B,
        output: &mut S,
        value: &V,
        state: &mut V::State,
    ) -> Option<Result<(), Refused>>
        requires room { IsTrue has_room
            → Fits (S.buffer output.old) (tree_width (tree_of beside self.now)) }
        requires agrees { V.agrees state.old value.now }
        ensures appends { MatchOption result (S.buffer output.new ≡ S.buffer output.old)
            (AppendsTree (tree_of beside self.now) (V.facts value.now)
            (S.buffer output.old) (S.buffer output.new)) }
        ensures valid { IfSome result (λ _. IsTrue (is_valid beside self.now)) }
        ensures agrees { V.agrees state.new value.now };
}

/// Writes the steps in order, up to the first that `write_inline` does not write, and returns that
/// one and all behind it, or the first refusal.
///
/// The caller writes the first of those that are left by a call, and goes on behind it.
#[inline(always)]
pub fn write_steps_inline<'a, B: Copy, T: WriteStep<B>, S: Sink, V: ComponentProvider>(
    steps: &'a [T],
    beside: B,
    output: &mut S,
    value: &V,
    state: &mut V::State,
) -> Result<&'a [T], Refused>
    requires room { IsTrue T.has_room → Fits (S.buffer output.old)
        (trees_width (trees (map (T.tree_of beside) steps.now))) }
    requires agrees { V.agrees state.old value.now }
    ensures written { IfOk result (λ left. IsWrittenUpTo (T.is_valid beside) (T.tree_of beside)
        (V.facts value.now) steps.now left.now (S.buffer output.old) (S.buffer output.new)) }
    ensures refused { IfErr result (λ refused. AppendsTree
        (all_of (trees (map (T.tree_of beside) steps.now))) (V.facts value.now)
        (S.buffer output.old) (S.buffer output.new) (Err refused)) }
    ensures agrees { V.agrees state.new value.now }
{
    let mut taken = output.take_out();
    let mut index = 0;
    while index < steps.len() {
        match steps[index].write_inline(beside, &mut taken, value, state) {
            Some(Ok(())) => index += 1,
            Some(Err(refused)) => {
                output.put_back(taken);
                return Err(refused);
            }
            None => {
                output.put_back(taken);
                return Ok(&steps[index..]);
            }
        }
    }
    output.put_back(taken);
    Ok(&[])
}
