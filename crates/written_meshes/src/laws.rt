//! Laws over the definitions alone. Each function takes nothing and answers nothing: its contract is
//! the law.
ghost use Rattle.written_meshes.specs.Accepted.{WrittenAccepted};
ghost use Rattle.written_meshes.specs.Continued.{WrittenContinues};
ghost use Rattle.written_meshes.specs.ForestRenaming.{CoarsenedStandsFor, LeastStandsFor, PatchesAreFewer, WrittenIsRenaming};
ghost use Rattle.written_meshes.specs.Passing.{WrittenPasses};
ghost use Rattle.written_meshes.specs.Renaming.{GradesAreLow, GradesDiffer, WrittenFits};
ghost use Rattle.written_meshes.specs.RoundRenaming.{NoRefusal, RoundStandsFor};
ghost use Rattle.written_meshes.specs.ValueRenaming.{ElementValuesStand, SetValuesStand};
ghost use Rattle.written_meshes.specs.WrittenTexts.{NoNameIsFlat, PointsAndLabelsStand, ReadAgainIsWritten};

use compat_check::laws;
use macro_file::laws as texts;
use mesh_rounds::laws as rounds;

/// The elements of a written mesh are valid, and the levels of its leaves fit as their grades.
pub fn written_fits()
    ensures { WrittenFits }
{}

/// Grades differ across a shared edge as the leaves' levels do.
pub fn grades_differ()
    ensures { GradesDiffer }
{}

/// No grade is above the leaf's level.
pub fn grades_are_low()
    ensures { GradesAreLow }
{}

/// The names of a written mesh stand for the names at and below the leaves that were written, partner
/// for partner.
pub fn written_is_renaming()
    ensures { WrittenIsRenaming }
{}

/// The least forest of names that stand for names stands for the least forest of these.
pub fn least_stands_for()
    ensures { LeastStandsFor }
{}

/// The coarsened forest of names that stand for names stands for the coarsened forest of these.
pub fn coarsened_stands_for()
    ensures { CoarsenedStandsFor }
{}

/// A forest of names that stand for names has no more patches than theirs.
pub fn patches_are_fewer()
    ensures { PatchesAreFewer }
{}

/// A round that was not refused is not refused from the written mesh.
pub fn no_refusal()
    ensures { NoRefusal }
{}

/// The forest after such a round stands for the forest after the round from the mesh that was written,
/// where this one coarsened no patch of the forest that was written.
pub fn round_stands_for()
    ensures { RoundStandsFor }
{}

/// What the check makes of a written text has the leaves as its elements.
pub fn read_again_is_written()
    ensures { ReadAgainIsWritten }
{}

/// Its names lie where those lie that they stand for, and have their labels.
pub fn points_and_labels_stand()
    ensures { PointsAndLabelsStand }
{}

/// Where all macro coordinates have at most ten decimals and no macro element is flat, no name of at
/// most 24 letters is flat.
pub fn no_name_is_flat()
    ensures { NoNameIsFlat }
{
    laws::midpoints_exact();
}

/// The check refuses a written text in which no leaf is flat only where memory runs out.
pub fn written_passes()
    ensures { WrittenPasses }
{}

/// Where leaves have the values of those that they stand for, they have them after a round too.
pub fn element_values_stand()
    ensures { ElementValuesStand }
{}

/// Where leaves have the values of those that they stand for, they have them too after rows have set
/// some.
pub fn set_values_stand()
    ensures { SetValuesStand }
{}

/// A written mesh of at most 65,535 leaves and vertices, in which no leaf is flat, is read again as what
/// was written, and accepted.
pub fn written_accepted()
    ensures { WrittenAccepted }
{
    laws::midpoints_exact();
    texts::written_is_read();
}

/// Rounds that coarsened no patch that was there when the mesh was written lead from the written mesh to
/// what they led to without the writing, and what is not refused after them is not refused there.
pub fn written_continues()
    ensures { WrittenContinues }
{
    rounds::new_is_forest();
    rounds::new_holds_partners();
    rounds::values_stay();
    rounds::first_values();
}
