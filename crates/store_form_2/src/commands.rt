//! The words of a compiler, as a key.

ghost use Rattle.std.specs.Prelude.{fold};
ghost use Rattle.store_form_2.specs.Commands.{is_same_command, command_alike, commands_decide, commands_equivalent, commands_partly};

use base::TextList;
use base_collections::NumberedKey;
use project_views::same_words;
use std::hash::{Hash, Hasher};

/// The words of a compiler.
#[derive(Drop)]
pub struct Command {
    pub words: TextList,
}

impl PartialEq for Command {
    ghost eq = { is_same_command };

    ghost laws = { commands_partly };

    fn eq(&self, other: &Command) -> bool {
        same_words(&self.words, &other.words)
    }
}

impl Eq for Command {
    ghost laws = { commands_equivalent };
}

/// Each word is handed over whole.
impl Hash for Command {
    ghost hash_input = { λ a. a.words };

    ghost respects_eq = { command_alike };

    fn hash<H: Hasher>(&self, state: &mut H) {
        for word in self.words.as_slice() {
            state.write(word.bytes());
        }
    }
}

impl NumberedKey for Command {
    ghost decides = { commands_decide };
}
