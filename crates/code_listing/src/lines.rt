ghost use Rattle.std.specs.Prelude.{◌≡◌, ◌++◌, ◌∷◌, [], ◌<◌, length, map, decimal, OnOk, OnErr};
ghost use Rattle.cc_core.specs.View.{constant_of, part_of};
ghost use Rattle.stack_code.specs.View.{code_of, instr_of};
ghost use Rattle.code_listing.specs.Listing.{space, line_feed, constant_text, kind_text, op_text, escaped, all_escaped, part_text, instr_name, operand_words, spaced, instr_text, function_lines, listing_of};

use cc_core::{Constant, PrintPart};
use cc_ops::{Kind, Op};
use ccpp_edge::Bytes;
use stack_code::{Code, Instr};
use std::alloc::{AllocError, Global};

/// Appends the listing of code: for each function `function NAME`, then a line for each of its instructions, with its place. Want of
/// memory leaves the text as it was.
pub fn listing(alloc: Global, code: &Code, out: &mut Bytes) -> Result<(), AllocError>
    ensures ok { OnOk result (out.new ≡ out.old ++ listing_of (code_of code.now)) }
    ensures err { OnErr result (out.new ≡ out.old) }
{
    let mut text = Bytes::new(alloc);
    for function in 0..code.functions() {
        push_function(alloc, &mut text, code, function)?;
    }
    out.append(text)?;
    Ok(())
}

/// Appends the lines of a function.
fn push_function(
    alloc: Global,
    text: &mut Bytes,
    code: &Code,
    function: u32,
) -> Result<(), AllocError>
    requires { function < length (code_of code.now).shapes.functions }
    ensures { OnOk result (text.new ≡ text.old ++ function_lines (code_of code.now) function) }
{
    text.extend_from_slice(b"function ")?;
    text.extend_from_slice(code.fun(function).name.as_str().as_bytes())?;
    text.push(b'\n')?;
    let entry = code.entry(function);
    let end = code.end(function);
    for place in entry..end {
        push_line(alloc, text, place, code.at(place))?;
    }
    Ok(())
}

/// Appends the line of an instruction.
fn push_line(alloc: Global, text: &mut Bytes, place: u32, instr: &Instr) -> Result<(), AllocError>
    ensures { OnOk result (text.new ≡ text.old ++ decimal place ++ space ∷ instr_text (instr_of instr.now) ++ line_feed ∷ []) }
{
    push_decimal(alloc, text, place)?;
    text.push(b' ')?;
    text.extend_from_slice(name(instr).as_bytes())?;
    push_operands(alloc, text, instr)?;
    text.push(b'\n')
}

/// The name of an instruction.
fn name(instr: &Instr) -> &'static str
    ensures { result.now ≡ instr_name (instr_of instr.now) }
{
    match instr {
        Instr::Push(_) => "push",
        Instr::This => "this",
        Instr::Var(_) => "var",
        Instr::Field(_) => "field",
        Instr::Drop => "drop",
        Instr::Jump(_) => "jump",
        Instr::End => "end",
        Instr::Index(_) => "index",
        Instr::At => "at",
        Instr::Load => "load",
        Instr::Store => "store",
        Instr::Op(_) => "op",
        Instr::Test(_) => "test",
        Instr::And(_) => "and",
        Instr::Or(_) => "or",
        Instr::Make { .. } => "make",
        Instr::Set { .. } => "set",
        Instr::Build { .. } => "build",
        Instr::New { .. } => "new",
        Instr::NewObj(_) => "newobj",
        Instr::Call(_) => "call",
        Instr::CallOn(_) => "callon",
        Instr::Spawn(_) => "spawn",
        Instr::SpawnOn(_) => "spawnon",
        Instr::Ret => "ret",
        Instr::Fork(_) => "fork",
        Instr::Each { .. } => "each",
        Instr::Join => "join",
        Instr::Print(_) => "print",
        Instr::Get => "get",
        Instr::Put => "put",
        Instr::Ask(_) => "ask",
        Instr::Cast(_) => "cast",
        Instr::NewProc(_) => "newproc",
    }
}

/// Appends what stands behind the name of an instruction, each word behind a space.
fn push_operands(alloc: Global, text: &mut Bytes, instr: &Instr) -> Result<(), AllocError>
    ensures { OnOk result (text.new ≡ text.old ++ spaced (operand_words (instr_of instr.now))) }
{
    match instr {
        Instr::Push(constant) => push_constant(alloc, text, *constant),
        Instr::Var(n) | Instr::Field(n) | Instr::Jump(n) | Instr::Index(n) => push_number(
            alloc, text, *n,
        ),
        Instr::Test(n) | Instr::And(n) | Instr::Or(n) => push_number(alloc, text, *n),
        Instr::NewObj(n) | Instr::NewProc(n) => push_number(alloc, text, *n),
        Instr::Call(n) | Instr::CallOn(n) | Instr::Ask(n) => push_number(alloc, text, *n),
        Instr::Spawn(n) | Instr::SpawnOn(n) | Instr::Cast(n) => push_number(alloc, text, *n),
        Instr::Op(op) => push_word(text, op_name(*op).as_bytes()),
        Instr::Make { var, kind, count } => {
            push_number(alloc, text, *var)?;
            push_word(text, kind_name(*kind).as_bytes())?;
            push_number(alloc, text, *count)
        }
        Instr::Set { var, kind } => {
            push_number(alloc, text, *var)?;
            push_word(text, kind_name(*kind).as_bytes())
        }
        Instr::Build { var, class } => push_two(alloc, text, *var, *class),
        Instr::New { kind, count } => {
            push_word(text, kind_name(*kind).as_bytes())?;
            push_number(alloc, text, *count)
        }
        Instr::Each { target, var } => push_two(alloc, text, *target, *var),
        Instr::Fork(targets) => push_numbers(alloc, text, targets.as_slice()),
        Instr::Print(parts) => push_parts(text, parts.as_slice()),
        _ => Ok(()),
    }
}

/// Appends a space and a word.
fn push_word(text: &mut Bytes, word: &[u8]) -> Result<(), AllocError>
    ensures { OnOk result (text.new ≡ text.old ++ (space ∷ word.now)) }
{
    text.push(b' ')?;
    text.extend_from_slice(word)
}

/// Appends a number in decimal.
fn push_decimal(alloc: Global, text: &mut Bytes, n: u32) -> Result<(), AllocError>
    ensures { OnOk result (text.new ≡ text.old ++ decimal n) }
{
    let digits = n.to_string(alloc)?;
    text.extend_from_slice(digits.as_bytes())
}

/// Appends a space and a number.
fn push_number(alloc: Global, text: &mut Bytes, n: u32) -> Result<(), AllocError>
    ensures { OnOk result (text.new ≡ text.old ++ (space ∷ decimal n)) }
{
    text.push(b' ')?;
    push_decimal(alloc, text, n)
}

fn push_two(alloc: Global, text: &mut Bytes, m: u32, n: u32) -> Result<(), AllocError>
    ensures { OnOk result (text.new ≡ text.old ++ spaced (decimal m ∷ decimal n ∷ [])) }
{
    push_number(alloc, text, m)?;
    push_number(alloc, text, n)
}

fn push_numbers(alloc: Global, text: &mut Bytes, numbers: &[u32]) -> Result<(), AllocError>
    ensures { OnOk result (text.new ≡ text.old ++ spaced (map decimal numbers.now)) }
{
    for n in numbers {
        push_number(alloc, text, *n)?;
    }
    Ok(())
}

fn push_constant(alloc: Global, text: &mut Bytes, constant: Constant) -> Result<(), AllocError>
    ensures { OnOk result (text.new ≡ text.old ++ (space ∷ constant_text (constant_of constant))) }
{
    match constant {
        Constant::Void => push_word(text, b"void"),
        Constant::Int(n) => {
            let digits = n.to_string(alloc)?;
            push_word(text, digits.as_bytes())
        }
        Constant::Null => push_word(text, b"null"),
    }
}

fn push_parts(text: &mut Bytes, parts: &[PrintPart]) -> Result<(), AllocError>
    ensures { OnOk result (text.new ≡ text.old ++ spaced (map part_text (map part_of parts.now))) }
{
    for part in parts {
        push_part(text, part)?;
    }
    Ok(())
}

fn push_part(text: &mut Bytes, part: &PrintPart) -> Result<(), AllocError>
    ensures { OnOk result (text.new ≡ text.old ++ (space ∷ part_text (part_of part.now))) }
{
    match part {
        PrintPart::Number => push_word(text, b"int"),
        PrintPart::Text(bytes) => {
            push_word(text, b"\"")?;
            push_escaped(text, bytes.as_slice())?;
            text.push(b'"')
        }
        PrintPart::Endl => push_word(text, b"endl"),
    }
}

/// Appends bytes, with a line feed, a tab, a backslash and a quote escaped.
fn push_escaped(text: &mut Bytes, bytes: &[u8]) -> Result<(), AllocError>
    ensures { OnOk result (text.new ≡ text.old ++ all_escaped bytes.now) }
{
    for byte in bytes {
        push_byte(text, *byte)?;
    }
    Ok(())
}

fn push_byte(text: &mut Bytes, byte: u8) -> Result<(), AllocError>
    ensures { OnOk result (text.new ≡ text.old ++ escaped byte) }
{
    match byte {
        b'\n' => text.extend_from_slice(b"\\n"),
        b'\t' => text.extend_from_slice(b"\\t"),
        b'\\' => text.extend_from_slice(b"\\\\"),
        b'"' => text.extend_from_slice(b"\\\""),
        _ => text.push(byte),
    }
}

fn kind_name(kind: Kind) -> &'static str
    ensures { result.now ≡ kind_text kind }
{
    match kind {
        Kind::Int => "int",
        Kind::SyncInt => "syncint",
        Kind::Ptr => "ptr",
        Kind::SyncPtr => "syncptr",
    }
}

fn op_name(op: Op) -> &'static str
    ensures { result.now ≡ op_text op }
{
    match op {
        Op::Neg => "neg",
        Op::Not => "not",
        Op::Bool => "bool",
        Op::Add => "add",
        Op::Sub => "sub",
        Op::Mul => "mul",
        Op::Div => "div",
        Op::Rem => "rem",
        Op::Eq => "eq",
        Op::Ne => "ne",
        Op::Lt => "lt",
        Op::Le => "le",
        Op::Gt => "gt",
        Op::Ge => "ge",
    }
}
