// The branches to come, innermost first: for each branching step that has some, one `Step`.
// specs/Stack.antt has what stands in it.
ghost use Rattle.std.specs.Prelude.{◌≡◌, ◌<◌, ◌≤◌, length};
ghost use Rattle.shortening_stack.specs.Stack.{Pushed, Popped, class_of, MovedOn, StaysFew};

use crate::{Class, Outline};

// With how many lines the branches of a step start, how many of these are kept, and how many branches are to come.
#[derive(Clone, Copy)]
pub struct Step {
    pub lines: u16,
    pub kept: u16,
    pub left: u32,
}

// What stands where no step does.
pub const NO_STEP: Step = Step {
    lines: 0,
    kept: 0,
    left: 0,
};

// One step more, unless it has no branches to come.
fn push(steps: &mut [Step], depth: usize, lines: u16, kept: u16, left: u16) -> usize
    requires { depth < length steps.old }
    ensures pushed { Pushed steps.old depth lines kept left steps.new result }
    ensures few { StaysFew left steps.old steps.new }
{
    if left == 0 {
        return depth;
    }
    steps[depth] = Step {
        lines,
        kept,
        left: u32::from(left),
    };
    depth + 1
}

// How many lines stand on the branch, how many of them are kept, and how many steps have branches to come.
#[derive(Clone, Copy)]
pub struct Standing {
    pub lines: u16,
    pub kept: u16,
    pub depth: usize,
}

// A branch ends, and the next one to come starts; none is to come, and none has lines, where there is no step.
fn end_branch(steps: &mut [Step], depth: usize) -> Standing
    requires { depth ≤ length steps.old }
    ensures popped { Popped steps.old depth steps.new result.lines result.kept result.depth }
    ensures few { StaysFew 0 steps.old steps.new }
{
    if depth == 0 {
        return Standing {
            lines: 0,
            kept: 0,
            depth,
        };
    }
    let last = depth - 1;
    let Step { lines, kept, left } = steps[last];
    if left <= 1 {
        return Standing {
            lines,
            kept,
            depth: last,
        };
    }
    steps[last] = Step {
        lines,
        kept,
        left: left - 1,
    };
    Standing { lines, kept, depth }
}

impl Outline {
    // A row that stays goes by: one more line, one more step, or the end of a branch.
    pub fn advance(self, standing: Standing, steps: &mut [Step]) -> Standing
        requires { (standing.lines < 0xFFFF) × (standing.kept < 0xFFFF) × (standing.depth < length steps.old) }
        ensures moved { MovedOn self.class self.come standing.lines standing.kept standing.depth steps.old steps.new result.lines result.kept result.depth }
        ensures few { StaysFew self.come steps.old steps.new }
    {
        let Standing { lines, kept, depth } = standing;
        match self.class {
            Class::Makes => Standing {
                lines: lines + 1,
                kept: kept + 1,
                depth,
            },
            Class::Branches => {
                let more = push(steps, depth, lines + 1, kept + 1, self.come);
                Standing {
                    lines: lines + 1,
                    kept: kept + 1,
                    depth: more,
                }
            }
            _ => end_branch(steps, depth),
        }
    }
}

// ---- the same by numbers
impl Class {
    // 0 to 3; a number above these ends a branch, as 2 does.
    fn of(number: u16) -> Class
        ensures { result ≡ class_of number }
    {
        match number {
            0 => Class::Makes,
            1 => Class::Branches,
            3 => Class::Claims,
            _ => Class::Closes,
        }
    }
}

// A row goes by whose class is given as a number. (The lines that it names are not asked for.)
pub fn advance(
    class: u16,
    come: u16,
    lines: u16,
    kept: u16,
    depth: usize,
    steps: &mut [Step],
) -> Standing
    requires { (lines < 0xFFFF) × (kept < 0xFFFF) × (depth < length steps.old) }
    ensures { MovedOn (class_of class) come lines kept depth steps.old steps.new result.lines result.kept result.depth }
{
    let x = Outline {
        class: Class::of(class),
        first: 0,
        second: 0,
        come,
    };
    let standing = Standing { lines, kept, depth };
    x.advance(standing, steps)
}

#[cfg(test)]
mod tests {
    use super::*;

    // A rounding by three behind four lines, three of them kept; then its branches end.
    #[test]
    fn a_rounding_and_its_branches(rt: HostRuntime) {
        let mut steps = [NO_STEP; 2];
        let rounds = Outline {
            class: Class::Branches,
            first: 2,
            second: 2,
            come: 3,
        };
        let closes = Outline {
            class: Class::Closes,
            first: 4,
            second: 4,
            come: 0,
        };
        let root = Standing {
            lines: 4,
            kept: 3,
            depth: 0,
        };
        let mut standing = rounds.advance(root, &mut steps);
        assert_eq!(rt; steps[0].left, 3);
        for (left, depth) in [(2, 1), (1, 1), (1, 0)] {
            assert_eq!(rt; (standing.lines, standing.kept, standing.depth), (5, 4, 1));
            assert!(rt; standing.lines < 0xFFFF && standing.kept < 0xFFFF && standing.depth < 2);
            standing = closes.advance(standing, &mut steps);
            assert_eq!(rt; (steps[0].left, standing.depth), (left, depth));
        }
    }
}
