//! The whole numbers that parameters are.

ghost use Rattle.std.specs.Prelude.{◌≡◌, ◌<◌, ℕ, IfErr, IfOk, map, None, Some, option_map, replicate, slice_get, vec_len};
ghost use Rattle.lft_elaborate.specs.inner.Refused.{IsLacking, SaysNoNumber};
ghost use Rattle.lft_elaborate.specs.inner.Values.{value_for_parameter, default_at, default_written, given_to, literal, main_value, main_values, number_in, number_named, signed, value_inside, values_inside};

use lft_classes::{Child, Shape};
use lft_whole::sources::{NoProgram, Why};
use lft_whole::{Expression, WrittenValue};
use std::alloc::{AllocError, Global};

/// A number of this size or more is as good as this one: it passes every limit.
const LARGE: u64 = 1 << 62;

/// As many times nothing.
pub(crate) fn nothing<N: Copy>(alloc: Global, count: usize) -> Result<Vec<Option<N>>, AllocError>
    ensures { IfOk result (λ list. list.items ≡ replicate count None) }
{
    let mut list = Vec::new(alloc);
    for _more in 0..count {
        list.push(None)?;
    }
    Ok(list)
}

/// A number with a sign, at most `LARGE` in size.
fn signed(is_negative: bool, count: u64) -> i64
    ensures { result ≡ signed is_negative count }
{
    // So cut it fits with either sign.
    let size = count.min(LARGE) as i64;
    if is_negative { -size } else { size }
}

/// The whole number that a value writes out.
fn literal(value: &WrittenValue) -> Option<i64>
    ensures { result ≡ literal value.now }
{
    match value {
        WrittenValue::Number {
            is_negative,
            count,
            // With a unit it is a time, and so no width.
            unit: None,
        } => Some(signed(*is_negative, *count)),
        _ => None,
    }
}

/// The number of the parameter of this name in a reactor with these values, if a width needs it.
pub(crate) fn number_named(shape: &Shape, values: &[i64], name: &str) -> Option<i64>
    ensures { result ≡ number_named shape.now (map (λ v. Some v) values.now) name.now }
{
    let parameter = shape.parameter(name)?;
    // The value of any other is 0 in each setting, whatever it is given.
    if shape.is_sized(parameter) {
        values.get(parameter).copied()
    } else {
        None
    }
}

/// The number that a value is, in a reactor with these values of its parameters. Only those that decide a width
/// count.
fn number(shape: &Shape, values: &[i64], file: usize, value: &Expression) -> Result<i64, NoProgram>
    ensures found { IfOk result (λ found. number_in shape.now (map (λ v. Some v) values.now) value.now.value ≡ Some found) }
    ensures lacking { IfErr result (IsLacking (number_in shape.now (map (λ v. Some v) values.now) value.now.value) (Some value.now.value)) }
{
    let found = match &value.value {
        WrittenValue::Word(word) => number_named(shape, values, word.as_str()),
        other => literal(other),
    };
    match found {
        Some(found) => Ok(found),
        None => Err(NoProgram::at(Why::NoWholeNumber, file, value.at)),
    }
}

/// The default of a parameter. `missing` is what is said where there is none.
fn default(inner: &Shape, parameter: usize, missing: NoProgram) -> Result<i64, NoProgram>
    ensures found { IfOk result (λ found. default_at inner.now parameter ≡ Some found) }
    ensures lacking { IfErr result (λ stop. SaysNoNumber None missing → IsLacking (default_at inner.now parameter) (default_written inner.now parameter) stop) }
{
    let Some(inherited) = inner.parameters.get(parameter) else {
        return Err(missing);
    };
    let Some(value) = &inherited.parameter.default else {
        return Err(missing);
    };
    // Written out it has to be, as a default can't be another parameter.
    match literal(&value.value) {
        Some(found) => Ok(found),
        None => Err(NoProgram::at(Why::NoWholeNumber, inherited.file, value.at)),
    }
}

/// The value of a parameter of the main reactor: its default. Of one that decides no width it is 0.
fn main_value(main: &Shape, parameter: usize) -> Result<i64, NoProgram>
    ensures found { IfOk result (λ found. main_value main.now parameter ≡ Some found) }
    ensures lacking { IfErr result (IsLacking (main_value main.now parameter) (default_written main.now parameter)) }
{
    if !main.is_sized(parameter) {
        return Ok(0);
    }
    let (file, at) = match main.parameters.get(parameter) {
        Some(inherited) => (inherited.file, inherited.parameter.name.at),
        None => (0, 0),
    };
    default(main, parameter, NoProgram::at(Why::MissingNumber, file, at))
}

/// The values of the parameters of the main reactor.
pub(crate) fn main_values(alloc: Global, main: &Shape) -> Result<Vec<i64>, NoProgram>
    ensures found { IfOk result (λ values. map (λ v. Some v) values.items ≡ main_values main.now) }
{
    let mut values = Vec::new(alloc);
    for parameter in 0..main.parameters.len() {
        values.push(main_value(main, parameter)?)?;
    }
    Ok(values)
}

/// What an instance gives, in a file and in a reactor with these values of its parameters.
#[derive(Clone, Copy)]
pub(crate) struct Giving<'o, 'v, 'c, 'a> {
    pub(crate) outer: &'o Shape<'a>,
    pub(crate) values: &'v [i64],
    pub(crate) file: usize,
    pub(crate) child: &'c Child<'a>,
}

/// For each of so many parameters what an instance gives to it.
fn given_values<'a>(
    alloc: Global,
    child: &Child<'a>,
    count: usize,
) -> Result<Vec<Option<&'a Expression>>, NoProgram>
    ensures long { IfOk result (λ table. vec_len table ≡ count) }
    ensures memory { IfErr result (λ stop. stop ≡ NoProgram.NoMemory) }
    ensures given { IfOk result (λ table. (p : ℕ) → p < count → slice_get (map (λ found. option_map (λ value. value.now.value) found) table.items) p ≡ Some (given_to child.now.given.items p)) }
{
    let mut table = nothing(alloc, count)?;
    // Backwards, so that of two values for one parameter the first would
    // count, as the definition says. Two are refused before.
    for place in (0..child.given.len()).rev() {
        let found = child.given[place];
        if found.parameter < table.len() {
            table[found.parameter] = Some(found.value);
        }
    }
    Ok(table)
}

/// The value of a parameter in an instance that may give it. Of one that decides no width it is 0.
fn inner_value(
    inner: &Shape,
    parameter: usize,
    given: Giving,
    value: Option<&Expression>,
    missing: NoProgram,
) -> Result<i64, NoProgram>
    ensures found { IfOk result (λ found. (option_map (λ value. value.now.value) value.entry ≡ given_to given.entry.child.now.given.items parameter) → value_inside given.entry.outer.now (map (λ v. Some v) given.entry.values.now) given.entry.child.now.given.items inner.now parameter ≡ Some found) }
    ensures lacking { IfErr result (λ stop. SaysNoNumber None missing → (option_map (λ value. value.now.value) value.entry ≡ given_to given.entry.child.now.given.items parameter) → IsLacking (value_inside given.entry.outer.now (map (λ v. Some v) given.entry.values.now) given.entry.child.now.given.items inner.now parameter) (value_for_parameter given.entry.child.now.given.items inner.now parameter) stop) }
{
    // Instances that differ in such parameters alone share a setting, and a reactor of the core.
    if !inner.is_sized(parameter) {
        return Ok(0);
    }
    match value {
        Some(value) => number(given.outer, given.values, given.file, value),
        None => default(inner, parameter, missing),
    }
}

/// The values of the parameters in an instance. `missing` is what is said where one is missing.
pub(crate) fn inner_values(
    alloc: Global,
    inner: &Shape,
    given: Giving,
    missing: NoProgram,
) -> Result<Vec<i64>, NoProgram>
    ensures found { IfOk result (λ values. map (λ v. Some v) values.items ≡ values_inside given.entry.outer.now (map (λ v. Some v) given.entry.values.now) given.entry.child.now.given.items inner.now) }
{
    let count = inner.parameters.len();
    let table = given_values(alloc, given.child, count)?;
    let mut values = Vec::new(alloc);
    for parameter in 0..count {
        let value = inner_value(inner, parameter, given, table[parameter], missing)?;
        values.push(value)?;
    }
    Ok(values)
}
