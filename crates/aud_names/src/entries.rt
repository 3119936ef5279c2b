// The entries of tasks that a region declares.

ghost use Rattle.std.specs.Prelude.{◌≡◌};
ghost use Rattle.aud_names.specs.Names.{entry_in};

use aud_text::name::Name;

/// An entry of a type of tasks (RM 9.5.2): the number of the type, the entry's name and its own number.
pub struct EntryName {
    pub task_type: usize,
    pub name: Name,
    pub number: usize,
}

// One call wherever it is dropped.
impl Drop for EntryName {
    fn drop(self) {
        let EntryName {
            task_type: _,
            name,
            number: _,
        } = self;
        drop(name);
    }
}

/// The number of the entry of this name of a type of tasks, if these have one.
pub fn entry_in(entries: &[EntryName], task_type: usize, name: &Name) -> Option<usize>
    ensures { result ≡ entry_in name.now task_type entries.now }
{
    let mut rest = entries;
    while let Some((entry, others)) = rest.split_first() {
        if task_type == entry.task_type && *name == entry.name {
            return Some(entry.number);
        }
        rest = others;
    }
    None
}
