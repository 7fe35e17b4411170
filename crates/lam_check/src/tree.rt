// The lines of a tree, read by the machine.

ghost use Rattle.std.specs.Prelude.{◌≡◌, ◌+◌, ◌^◌, ◌<◌, ◌∷◌, [], length, All, OnOk, IfOk, IfErr, IfNone, IfSome};
ghost use Rattle.lam_tree.specs.Reading.{read};
ghost use Rattle.lam_tree.specs.Checks.{TreeChecks};
ghost use Rattle.lam_check.specs.Faults.{fault_is};
ghost use Rattle.lam_check.specs.inside.Steps.{IsTrueLeaf, Sums};

use crate::fault::CheckFault;
use crate::lines::Lines;
use crate::problem::Problem;
use crate::state::{State, Summary};
use lam_tree::Answer;

/// Checks the lines of a tree, of which the first has this number, with the answer that is printed
/// and the cost of the best schedule.
pub fn read_tree<P: Problem, L: Lines>(
    problem: &P,
    answer: &Answer,
    best: Option<u64>,
    lines: &mut L,
    first: u32,
) -> Result<Summary, CheckFault>
    requires { first + length (L.rest lines.old) < 2 ^ 32 }
    ensures none { let m = P.basis problem.now in OnOk result
        (TreeChecks m.stock m.job m.tests best first (read m.stock m.job (L.rest lines.old)) None) }
    ensures sums { let m = P.basis problem.now in IfOk result
        (λ s. Sums m answer.now best (read m.stock m.job (L.rest lines.old)) s) }
    ensures leaves { let m = P.basis problem.now in OnOk result
        (All (λ v. IsTrueLeaf m best v.partial v.word)
        (read m.stock m.job (L.rest lines.old)).visits) }
    ensures fault { let m = P.basis problem.now in IfErr result
        (λ fault. TreeChecks m.stock m.job m.tests best first
        (read m.stock m.job (L.rest lines.old)) (Some (fault_is fault))) }
{
    let mut state = State::new(problem);
    let mut line = first;
    'lines: while let Some(node) = lines.next_line() {
        if let Err(cause) = state.read_line(problem, answer, best, &node) {
            return Err(CheckFault { line, cause });
        }
        line += 1;
    }
    Ok(state.summary(problem))
}
