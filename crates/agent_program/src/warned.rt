//! What is written and logged of the warnings of a configuration.
ghost use Rattle.std.specs.Prelude.{◌≡◌, ◌++◌, flat_map, IfOk, OnOk};
ghost use Rattle.agent_program.specs.Warned.{warning_line, warned_text};

use configuration::{Warning, warning_sentence};
use log::{Log, warn};
use std::alloc::{AllocError, Global};

// Adds the line of a warning to a text.
fn add_line(alloc: Global, warning: Warning, text: &mut Vec<u8>) -> Result<(), AllocError>
    ensures { OnOk result (text.new.items ≡ text.old.items ++ warning_line warning) }
{
    let sentence = warning_sentence(alloc, warning)?;
    let line = format!(in alloc; "warning: {sentence}\n")?;
    text.extend_from_slice(line.as_bytes())
}

// Adds the lines of warnings to a text.
fn add_lines(alloc: Global, warnings: &[Warning], text: &mut Vec<u8>) -> Result<(), AllocError>
    ensures { OnOk result (text.new.items ≡ text.old.items ++ flat_map warning_line warnings.now) }
{
    for warning in warnings {
        add_line(alloc, *warning, text)?;
    }
    Ok(())
}

/// A line, and behind it one for each warning, `warning: ` and its sentence.
///
/// # Errors
/// `AllocError` where there is no memory for them.
pub fn warned_text(alloc: Global, line: &[u8], warnings: &[Warning]) -> Result<Vec<u8>, AllocError>
    ensures { IfOk result (λ text. text.items ≡ warned_text line.now warnings.now) }
{
    let mut text = Vec::new(alloc);
    text.extend_from_slice(line)?;
    add_lines(alloc, warnings, &mut text)?;
    Ok(text)
}

/// Logs each of the warnings by its sentence, in a line of level Warn; where there was no memory to find
/// them, or for a sentence, that.
pub fn log_warnings<G: Log>(log: &G, alloc: Global, warnings: Option<&[Warning]>) {
    match warnings {
        Some(warnings) => {
            for warning in warnings {
                log_warning(log, alloc, *warning);
            }
        }
        None => warn!(log; "there was no memory to find what is warned of in the configuration"),
    }
}

// Logs a warning by its sentence.
fn log_warning<G: Log>(log: &G, alloc: Global, warning: Warning) {
    match warning_sentence(alloc, warning) {
        Ok(sentence) => warn!(log; "{}", sentence),
        Err(_) => warn!(log; "there was no memory for a warning of the configuration"),
    }
}
