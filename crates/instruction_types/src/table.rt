//! What each instruction that is not local means.

ghost use Rattle.std.specs.Prelude.{◌≡◌, IsFalse, ℕ};
ghost use Rattle.model.specs.Linkable.{stands, DuplicateClass};
ghost use Rattle.types.specs.method_code.View.{files_of};
ghost use Rattle.types.specs.method_code.Site.{site_of};
ghost use Rattle.instruction_types.specs.Answers.{AnswersAt};

use crate::arrays::{array_length, load_element, store_element};
use crate::calls::{invoke_interface, invoke_special, invoke_static, invoke_virtual};
use crate::fields::on_field;
use crate::meaning::{Meaning, NoMeaning};
use crate::objects::{
    check_cast, instance_of, load_constant, new_array, new_object, new_reference_array, on_monitor,
    throw,
};
use crate::returns::return_of;
use model::{FieldAccess, Instr, Invocation};
use std::alloc::Global;
use types::method_code::Site;

/// An instruction on the field that an index names.
fn field_at(
    alloc: Global,
    site: &Site<'_>,
    access: FieldAccess,
    index: u16,
) -> Result<Meaning, NoMeaning>
    requires differ { IsFalse (stands (files_of site.now.method) DuplicateClass) }
    requires there { site.now.instr ≡ Instr.Field access index }
    ensures { AnswersAt (files_of site.now.method) (site_of site.now) result }
{
    match site.method.file.field_reference(index) {
        Some(field) => on_field(alloc, site.method.hierarchy, access, field),
        None => Err(NoMeaning::Unnamed),
    }
}

/// A call of the method that an index names.
fn invoke_at(
    alloc: Global,
    site: &Site<'_>,
    invocation: Invocation,
    index: u16,
) -> Result<Meaning, NoMeaning>
    requires differ { IsFalse (stands (files_of site.now.method) DuplicateClass) }
    requires there { site.now.instr ≡ Instr.Invoke invocation index }
    ensures { AnswersAt (files_of site.now.method) (site_of site.now) result }
{
    let hierarchy = site.method.hierarchy;
    let Some(method) = site.method.file.method_reference(index) else {
        return Err(NoMeaning::Unnamed);
    };
    match invocation {
        Invocation::Virtual => invoke_virtual(alloc, hierarchy, method),
        Invocation::Special => invoke_special(alloc, hierarchy, method, site.method.class),
        Invocation::Static => invoke_static(alloc, hierarchy, method),
    }
}

/// `invokeinterface` of the method that an index names.
fn invoke_interface_at(alloc: Global, site: &Site<'_>, index: u16) -> Result<Meaning, NoMeaning>
    requires differ { IsFalse (stands (files_of site.now.method) DuplicateClass) }
    ensures { (count last : ℕ) → site.now.instr ≡ Instr.InvokeInterface index count last
        → AnswersAt (files_of site.now.method) (site_of site.now) result }
{
    match site.method.file.interface_method_reference(index) {
        Some(method) => invoke_interface(alloc, site.method.hierarchy, method),
        None => Err(NoMeaning::Unnamed),
    }
}

/// `new` of the class that an index names.
fn new_at(alloc: Global, site: &Site<'_>, index: u16) -> Result<Meaning, NoMeaning>
    requires there { site.now.instr ≡ Instr.New index }
    ensures { AnswersAt (files_of site.now.method) (site_of site.now) result }
{
    match site.method.file.class_name(index) {
        Some(name) => new_object(alloc, site.method.set(), name),
        None => Err(NoMeaning::Unnamed),
    }
}

/// `anewarray` of the type that an index names.
fn new_reference_array_at(alloc: Global, site: &Site<'_>, index: u16) -> Result<Meaning, NoMeaning>
    requires there { site.now.instr ≡ Instr.NewReferenceArray index }
    ensures { AnswersAt (files_of site.now.method) (site_of site.now) result }
{
    match site.method.file.class_name(index) {
        Some(name) => new_reference_array(alloc, site.method.set(), name),
        None => Err(NoMeaning::Unnamed),
    }
}

/// `checkcast` to the type that an index names.
fn check_cast_at(alloc: Global, site: &Site<'_>, index: u16) -> Result<Meaning, NoMeaning>
    requires there { site.now.instr ≡ Instr.CheckCast index }
    ensures { AnswersAt (files_of site.now.method) (site_of site.now) result }
{
    match site.method.file.class_name(index) {
        Some(name) => check_cast(alloc, site.method.set(), name),
        None => Err(NoMeaning::Unnamed),
    }
}

/// `instanceof` of the type that an index names.
fn instance_of_at(alloc: Global, site: &Site<'_>, index: u16) -> Result<Meaning, NoMeaning>
    requires there { site.now.instr ≡ Instr.InstanceOf index }
    ensures { AnswersAt (files_of site.now.method) (site_of site.now) result }
{
    match site.method.file.class_name(index) {
        Some(_) => instance_of(alloc),
        None => Err(NoMeaning::Unnamed),
    }
}

/// What the instruction of a site wants and where it leads, if it is not local (JVMS 4.10.1.9). No two classes of the
/// set may have one name.
pub fn meaning_of(alloc: Global, site: &Site<'_>) -> Result<Meaning, NoMeaning>
    requires differ { IsFalse (stands (files_of site.now.method) DuplicateClass) }
    ensures { AnswersAt (files_of site.now.method) (site_of site.now) result }
{
    let set = site.method.set();
    match site.instr {
        Instr::Field { access, index } => field_at(alloc, site, access, index),
        Instr::Invoke { invocation, index } => invoke_at(alloc, site, invocation, index),
        Instr::InvokeInterface { index, .. } => invoke_interface_at(alloc, site, index),
        Instr::Return(returned) => return_of(alloc, set, site.method.descriptor(), returned),
        Instr::LoadConstant { index } => load_constant(alloc, set, site.method.file, index),
        Instr::New { index } => new_at(alloc, site, index),
        Instr::NewArray { code } => new_array(alloc, code),
        Instr::NewReferenceArray { index } => new_reference_array_at(alloc, site, index),
        Instr::ArrayLength => array_length(alloc),
        Instr::LoadElement(kind) => load_element(alloc, kind),
        Instr::StoreElement(kind) => store_element(alloc, kind),
        Instr::CheckCast { index } => check_cast_at(alloc, site, index),
        Instr::InstanceOf { index } => instance_of_at(alloc, site, index),
        Instr::Throw => throw(alloc),
        Instr::MonitorEnter => on_monitor(alloc),
        Instr::MonitorExit => on_monitor(alloc),
        _ => Err(NoMeaning::Unnamed),
    }
}
