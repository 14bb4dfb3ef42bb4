// Grading budgets by the three house curves, for C.
ghost use Rattle.grader.specs.Says.{GradeSays};
ghost use Rattle.energy.specs.Through.{Through};
ghost use Rattle.answers.specs.Flat.{grade_flat};

use answers::EnergyGradeAnswer;

// Grades any budgets.
#[unsafe(no_mangle)]
pub extern "C" fn energy_grade(budgets: &[u32]) -> EnergyGradeAnswer
    ensures { Through (GradeSays budgets.now) grade_flat result }
{
    grader::grade(budgets).into()
}
