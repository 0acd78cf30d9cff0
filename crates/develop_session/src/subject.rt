//! The subject of a replay or a session: its picture and its script.
ghost use Rattle.std.specs.Prelude.{◌≡◌, IfOk, IfErr, IfSome};
ghost use Rattle.std.specs.Arc.{arc_value};
ghost use Rattle.px.specs.Cut.{IsWhole};
ghost use Rattle.outside.specs.Faults.{NoneFalls};
ghost use Rattle.publish.specs.Files.{RoseAt};
ghost use Rattle.develop_session.specs.Failures.{InputFails};
ghost use Rattle.develop_session.specs.Subject.{HasSubject};

use crate::inputs::read_inputs;
use crate::status::Status;
use dev_core::Subject;
use edit_steps::Script;
use modules_raw::Source;
use outside::Shelf;
use px::Plane;
use std::alloc::{AllocError, Global};
use std::sync::Arc;

fn subject_of(alloc: Global, script: Script, plane: Plane) -> Result<Arc<Subject>, AllocError>
    requires whole { IsWhole plane }
    ensures { IfOk result (λ s. arc_value s ≡ record { source = plane; script = script }) }
{
    let source = Arc::new(alloc, Source::of(plane)).map_err(AllocError::from)?;
    Ok(Arc::new(alloc, Subject::of(source, script)).map_err(AllocError::from)?)
}

/// The subject of the script and the source under two names.
pub(crate) fn read_subject<S: Shelf>(
    alloc: Global,
    shelf: &mut S,
    script: &str,
    source: &str,
) -> Result<Arc<Subject>, Status>
    ensures subject { IfOk result (λ s. IfSome (S.files shelf.old) (λ fs. HasSubject script.now source.now fs (arc_value s))) }
    ensures cause { IfErr result (InputFails script.now source.now (S.files shelf.old) (RoseAt (S.read_faults shelf.old) (S.read_faults shelf.new))) }
    ensures unchanged { S.files shelf.new ≡ S.files shelf.old }
    ensures reads { NoneFalls (S.read_faults shelf.old) (S.read_faults shelf.new) }
    ensures puts { NoneFalls (S.put_faults shelf.old) (S.put_faults shelf.new) }
{
    let (script, plane) = read_inputs(alloc, shelf, script, source)?;
    Ok(subject_of(alloc, script, plane)?)
}
