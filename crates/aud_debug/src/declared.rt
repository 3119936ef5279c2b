// What a program declares, as its tables say it.

ghost use Rattle.std.specs.Prelude.{◌≡◌, map};
ghost use Rattle.aud_typed.specs.Ties.View.{plain_named, plain_program};
ghost use Rattle.aud_meaning.specs.Listings.Values.{exception_name};
ghost use Rattle.aud_meaning.specs.Parts.{entry_plan, object_plan};

use aud_machine::compiled::Compiled;
use aud_typed::program::{Exception, Named};

/// The entries of a declaration of a protected object.
pub(crate) fn protected_entries_of<'a>(compiled: Compiled<'a>, declaration: usize) -> &'a [usize]
    ensures { result.now
        ≡ (object_plan (plain_program compiled.entry.program.now).plan declaration).entries }
{
    match compiled.program.objects.get(declaration) {
        Some(object) => &object.entries,
        None => &[],
    }
}

/// Its name.
pub(crate) fn object_name<'a>(compiled: Compiled<'a>, declaration: usize) -> &'a [u8]
    ensures { result.now
        ≡ (object_plan (plain_program compiled.entry.program.now).plan declaration).name }
{
    match compiled.program.objects.get(declaration) {
        Some(object) => object.name.as_bytes(),
        None => &[],
    }
}

/// How many frames are open around that of the object.
pub(crate) fn object_level(compiled: Compiled<'_>, declaration: usize) -> usize
    ensures { result
        ≡ (object_plan (plain_program compiled.entry.program.now).plan declaration).level }
{
    match compiled.program.objects.get(declaration) {
        Some(object) => object.level,
        None => 0,
    }
}

/// Its components, in the order of their declarations.
pub(crate) fn components_of<'a>(compiled: Compiled<'a>, declaration: usize) -> &'a [Named]
    ensures { map plain_named result.now
        ≡ (object_plan (plain_program compiled.entry.program.now).plan declaration).components }
{
    match compiled.program.objects.get(declaration) {
        Some(object) => &object.components,
        None => &[],
    }
}

/// The name of an entry.
pub(crate) fn entry_name<'a>(compiled: Compiled<'a>, entry: usize) -> &'a [u8]
    ensures { result.now ≡ (entry_plan (plain_program compiled.entry.program.now).plan entry).name }
{
    match compiled.program.entries.get(entry) {
        Some(entry) => entry.name.as_bytes(),
        None => &[],
    }
}

/// The name of an exception, in capitals.
pub(crate) fn exception_name<'a>(compiled: Compiled<'a>, exception: Exception) -> &'a [u8]
    ensures { result.now
        ≡ exception_name (plain_program compiled.entry.program.now).plan exception }
{
    match exception {
        Exception::Predefined(raise) => raise.name(),
        Exception::Declared(number) => match compiled.program.exceptions.get(number) {
            Some(name) => name.as_bytes(),
            None => &[],
        },
    }
}
