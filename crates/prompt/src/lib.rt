// The prompt: from a file and a state to the codes to light.
#![tactic(auto)]

ghost use Rattle.meaning.specs.Promises.{Prompts};

use codes::Codes;
use meaning::{Refusal, Words};
use procedure::{MOST_NODES, Procedure};

mod near; // near.rt: which event nodes can directly follow one another in the loosened procedure
mod light; // light.rt: the codes to light

// Prompt: the codes to light; or refused with 1 to 8.
pub fn prompt(file: &[u8], state: &[u8]) -> Result<Words, Refusal>
    ensures { Prompts file.now state.now result }
{
    let mut procedure = Procedure::blank();
    let mut firsts = [Codes::none(); MOST_NODES];
    judge::admit(file, &mut procedure, &mut firsts)?;
    light::light(&procedure, &firsts, state)
}
