//! The kinds of the arguments of a call.
ghost use Rattle.std.specs.Prelude.{◌≡◌, ◌<◌, IfOk};
ghost use Rattle.editor_model.specs.Values.{is_nil};
ghost use Rattle.editor_model.specs.Arguments.{flag, refuse, is_position, is_buffer};
ghost use Rattle.editor_model.specs.Arguments.{string_of, symbol_of, marker_number, overlay_number};
ghost use Rattle.editor_model.specs.Arguments.{must_be_position, must_be_position_or_nil};
ghost use Rattle.editor_model.specs.Arguments.{must_be_string, must_be_name};
ghost use Rattle.editor_model.specs.Arguments.{must_be_symbol, must_be_buffer};
ghost use Rattle.editor_model.specs.Arguments.{must_be_buffer_or_nil, must_be_marker};
ghost use Rattle.editor_model.specs.Arguments.{must_be_overlay};
ghost use Rattle.ek_call.specs.Meaning.{view};
ghost use Rattle.ek_call.specs.Faults.{fault_of};
ghost use Rattle.prim_arguments.specs.Meaning.{fault_in};

use ek_call::{Fault, Value};
use ek_types::{Piece, Sym};

/// Refuses with a fault unless a test holds.
pub fn must(ok: bool, fault: Fault) -> Result<(), Fault>
    ensures { fault_in result ≡ refuse (fault_of fault) ok }
{
    if ok { Ok(()) } else { Err(fault) }
}

/// A flag: anything but nil is yes.
pub fn flag(v: &Value) -> bool
    ensures { result ≡ flag (view v.now) }
{
    !v.is_nil()
}

fn is_position(v: &Value) -> bool
    ensures { result ≡ is_position (view v.now) }
{
    matches!(v, Value::Int(_) | Value::Marker(_))
}

fn is_buffer(v: &Value) -> bool
    ensures { result ≡ is_buffer (view v.now) }
{
    matches!(v, Value::Buffer(_) | Value::Str(_))
}

/// An integer or a marker.
pub fn must_be_position(v: &Value) -> Result<(), Fault>
    ensures { fault_in result ≡ must_be_position (view v.now) }
{
    must(is_position(v), Fault::WrongType)
}

pub fn must_be_position_or_nil(v: &Value) -> Result<(), Fault>
    ensures { fault_in result ≡ must_be_position_or_nil (view v.now) }
{
    must(v.is_nil() || is_position(v), Fault::WrongType)
}

/// A buffer or a name.
pub fn must_be_buffer(v: &Value) -> Result<(), Fault>
    ensures { fault_in result ≡ must_be_buffer (view v.now) }
{
    must(is_buffer(v), Fault::WrongType)
}

pub fn must_be_buffer_or_nil(v: &Value) -> Result<(), Fault>
    ensures { fault_in result ≡ must_be_buffer_or_nil (view v.now) }
{
    must(v.is_nil() || is_buffer(v), Fault::WrongType)
}

/// The contents of a string.
pub fn string(v: &Value) -> Result<&Piece, Fault>
    ensures test { fault_in result ≡ must_be_string (view v.now) }
    ensures content { IfOk result (λ text. text.now ≡ string_of (view v.now)) }
{
    match v {
        Value::Str(text) => Ok(text),
        _ => Err(Fault::WrongType),
    }
}

/// A name, which isn't empty.
pub fn name(v: &Value) -> Result<&Piece, Fault>
    ensures test { fault_in result ≡ must_be_name (view v.now) }
    ensures content { IfOk result (λ text. text.now ≡ string_of (view v.now)) }
{
    match v {
        Value::Str(text) if !text.is_empty() => Ok(text),
        _ => Err(Fault::WrongType),
    }
}

pub fn symbol(v: &Value) -> Result<Sym, Fault>
    ensures test { fault_in result ≡ must_be_symbol (view v.now) }
    ensures content { IfOk result (λ name. name.0 ≡ symbol_of (view v.now)) }
{
    match v {
        Value::Sym(name) => Ok(*name),
        _ => Err(Fault::WrongType),
    }
}

/// The number of a marker.
pub fn marker(v: &Value) -> Result<u32, Fault>
    ensures test { fault_in result ≡ must_be_marker (view v.now) }
    ensures content { IfOk result (λ k. k ≡ marker_number (view v.now)) }
{
    match v {
        Value::Marker(k) => Ok(*k),
        _ => Err(Fault::WrongType),
    }
}

/// The number of an overlay.
pub fn overlay(v: &Value) -> Result<u32, Fault>
    ensures test { fault_in result ≡ must_be_overlay (view v.now) }
    ensures content { IfOk result (λ k. k ≡ overlay_number (view v.now)) }
{
    match v {
        Value::Overlay(k) => Ok(*k),
        _ => Err(Fault::WrongType),
    }
}
