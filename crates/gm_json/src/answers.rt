//! What is answered to a command, and why a request has no answer.

ghost use Rattle.std.specs.Prelude.{◌≡◌, IfOk};
ghost use Rattle.std.specs.String.{string_bytes};
ghost use Rattle.serde_json.specs.View.{view};
ghost use Rattle.gm_json.specs.Answers.{done_data, done_json, error_data, error_json, fault_data, fault_json, refused_data, refused_json, repeated_data, repeated_json};

use crate::text::text_of;
use gm_state::Reply;
use serde_json::{Value, json};
use std::alloc::{AllocError, Global};

fn done_value(alloc: Global, number: u64, reply: Reply) -> Result<Value, AllocError>
    ensures { IfOk result (λ v. view v ≡ done_data number reply) }
{
    match reply {
        Reply::Plain => json!(in alloc; {"answer": "ok", "seq": number}),
        Reply::Copied { held, total } => {
            json!(in alloc; {"answer": "ok", "copied": held, "of": total, "seq": number})
        }
    }
}

fn repeated_value(alloc: Global, number: u64) -> Result<Value, AllocError>
    ensures { IfOk result (λ v. view v ≡ repeated_data number) }
{
    json!(in alloc; {"answer": "repeated", "seq": number})
}

fn refused_value(alloc: Global, number: u8) -> Result<Value, AllocError>
    ensures { IfOk result (λ v. view v ≡ refused_data number) }
{
    json!(in alloc; {"answer": "refused", "number": number})
}

fn fault_value(alloc: Global, number: u8) -> Result<Value, AllocError>
    ensures { IfOk result (λ v. view v ≡ fault_data number) }
{
    json!(in alloc; {"fault": number})
}

fn error_value(alloc: Global, message: &str) -> Result<Value, AllocError>
    ensures { IfOk result (λ v. view v ≡ error_data message.now) }
{
    json!(in alloc; {"error": message})
}

/// The answer to a command that was accepted under this number.
pub fn done_json(alloc: Global, number: u64, reply: Reply) -> Result<String, AllocError>
    ensures { IfOk result (λ text. string_bytes text ≡ done_json number reply) }
{
    let value = done_value(alloc, number, reply)?;
    text_of(alloc, &value)
}

/// The answer to a command that was accepted before, under this number.
pub fn repeated_json(alloc: Global, number: u64) -> Result<String, AllocError>
    ensures { IfOk result (λ text. string_bytes text ≡ repeated_json number) }
{
    let value = repeated_value(alloc, number)?;
    text_of(alloc, &value)
}

/// The answer to a command that is refused, by the number of the refusal.
pub fn refused_json(alloc: Global, number: u8) -> Result<String, AllocError>
    ensures { IfOk result (λ text. string_bytes text ≡ refused_json number) }
{
    let value = refused_value(alloc, number)?;
    text_of(alloc, &value)
}

/// That the bench can't answer, by the number of its fault.
pub fn fault_json(alloc: Global, number: u8) -> Result<String, AllocError>
    ensures { IfOk result (λ text. string_bytes text ≡ fault_json number) }
{
    let value = fault_value(alloc, number)?;
    text_of(alloc, &value)
}

/// Why a request isn't one that is answered, in these words.
pub fn error_json(alloc: Global, message: &str) -> Result<String, AllocError>
    ensures { IfOk result (λ text. string_bytes text ≡ error_json message.now) }
{
    let value = error_value(alloc, message)?;
    text_of(alloc, &value)
}
