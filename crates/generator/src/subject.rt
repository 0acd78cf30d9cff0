//! The subject: the picture and the script.
ghost use Rattle.std.specs.Prelude.{◌≡◌, IfOk};
ghost use Rattle.std.specs.Arc.{arc_value};
ghost use Rattle.generator.specs.Picture.{number_behind};
ghost use Rattle.generator.specs.Script.{TellsFault};
ghost use Rattle.generator.specs.Subject.{gen_subject};

use crate::draws::Draws;
use crate::picture::picture;
use crate::steps::{script_of, steps};
use dev_core::Subject;
use edit_steps::ScriptEnd;
use std::alloc::{AllocError, Global};
use std::sync::Arc;

/// The subject of a start, and the draws behind its picture's.
pub(crate) fn subject(alloc: Global, start: u32) -> Result<(Arc<Subject>, Draws), ScriptEnd>
    ensures subject { IfOk result (λ made. arc_value made.0 ≡ gen_subject start) }
    ensures draws { IfOk result (λ made. made.1.number ≡ number_behind start) }
    ensures refused { TellsFault (number_behind start) result }
{
    let mut draws = Draws { number: start };
    let source = picture(alloc, &mut draws)?;
    let steps = steps(alloc, draws)?;
    let script = script_of(alloc, &steps)?;
    let source = Arc::new(alloc, source).map_err(AllocError::from)?;
    let subject = Arc::new(alloc, Subject::of(source, script)).map_err(AllocError::from)?;
    Ok((subject, draws))
}
