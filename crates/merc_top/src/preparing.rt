//! The code of an accepted goal over an accepted module, ready to run.
ghost use Rattle.std.specs.Prelude.{◌≡◌, [], ◌∷◌, ℕ, length, IfOk};
ghost use Rattle.merc_graded_tree.specs.Nodes.{Node};
ghost use Rattle.merc_meaning.specs.Programs.{program_with};
ghost use Rattle.merc_meaning.specs.Runs.{run};
ghost use Rattle.merc_code.specs.Steps.{Code, Codes};
ghost use Rattle.merc_code.specs.Meaning.{start};
ghost use Rattle.merc_meaning.specs.Shown.{shown};
ghost use Rattle.merc_course.specs.Course.{whole};
ghost use Rattle.merc_course.specs.Alone.{MeetsNobody, ProgramMeetsNobody};
ghost use Rattle.merc_last_calls.specs.LeanMeaning.{YieldsLean};
ghost use Rattle.merc_load.specs.Loaded.{IsProgram};
ghost use Rattle.merc_solving.specs.Ready.{IsReady};

use merc_base::{Names, NoMemory};
use merc_check::{Checked, Query};
use merc_gen::generate;
use merc_goal_tree::Vars;
use merc_graded_tree::Nodes;
use merc_load::{Loaded, load};
use merc_solving::Ready;
use std::alloc::Global;

/// Makes ready the run of an accepted goal over an accepted module, in at most so many steps and with so many answers at most.
/// They meet nobody.
///
/// # Errors
///
/// `NoMemory` where memory was refused.
pub fn prepare(
    alloc: Global,
    names: Names,
    checked: &Checked,
    query: Query,
    steps: u64,
    most: Option<u64>,
) -> Result<Ready, NoMemory>
    requires { length query.trees ≡ 1 }
    ensures { IfOk result (λ ready. (tree : Node) → query.trees ≡ tree ∷ [] → ProgramMeetsNobody (program_with checked.now.module.preds checked.now.trees) → MeetsNobody tree → IsReady names query.names most (shown query.answers (run (program_with checked.now.module.preds checked.now.trees) tree steps)) ready) }
{
    let Query {
        goal,
        trees,
        answers,
        names: variables,
    } = query;
    drop(goal);
    let program = program_of(alloc, checked, &trees, answers);
    drop(trees);
    match program {
        Ok(program) => Ok(Ready {
            names,
            variables,
            program,
            steps,
            most,
        }),
        Err(refused) => {
            drop(variables);
            drop(names);
            Err(refused)
        }
    }
}

// The code of a module and of a goal whose tree is alone in its list, and whose answers give these variables values. They
// meet nobody.
fn program_of(
    alloc: Global,
    checked: &Checked,
    trees: &Nodes,
    answers: Vars,
) -> Result<Loaded, NoMemory>
    requires { length trees.now ≡ 1 }
    ensures { IfOk result (λ program. (tree : Node) → trees.now ≡ tree ∷ [] → ProgramMeetsNobody (program_with checked.now.module.preds checked.now.trees) → MeetsNobody tree → (steps : ℕ) → (codes : Codes) × (query : Code) × IsProgram program codes query × YieldsLean codes (start query steps) (whole (shown answers (run (program_with checked.now.module.preds checked.now.trees) tree steps)))) }
{
    let goal = match trees.get(0) {
        Some(goal) => goal,
        None => unreachable!(),
    };
    let preds = checked.module().preds.as_slice();
    let code = generate(alloc, preds, checked.trees(), &goal, answers)?;
    load(alloc, code)
}
