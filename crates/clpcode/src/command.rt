//! What the words of the command line ask for.

ghost use Rattle.std.specs.Prelude.{◌≡◌, map, string_bytes};
ghost use Rattle.clpcode.specs.Words.{task_named as its_task, task_of as their_task};

/// What is asked for.
#[derive(Clone, Copy, Debug, PartialEq, Eq)]
pub enum Task {
    /// The listing of a text's code is written.
    List,
    /// The queries of a listing are run.
    Load,
}

/// What a word asks for.
fn task_named(word: &str) -> Option<Task>
    ensures { result ≡ its_task word.now }
{
    if word == "list" {
        Some(Task::List)
    } else if word == "load" {
        Some(Task::Load)
    } else {
        None
    }
}

/// What the words ask for: `list` or `load`, if that is the one word. No memory.
pub fn task_of(words: &[String]) -> Option<Task>
    ensures { result ≡ their_task (map string_bytes words.now) }
{
    match words {
        [word] => task_named(word.as_str()),
        _ => None,
    }
}
