//! The frames of a workload.

ghost use Rattle.std.specs.Prelude.{◌≡◌, ◌*◌, ◌≤◌, ◌<◌, ◌∷◌, [], IfOk, OnOk, length};
ghost use Rattle.std.specs.List.{AllByRecursion};
ghost use Rattle.omos_wire.specs.Message.{End, Stats, message_of, HasFrame};
ghost use Rattle.workload_calls.specs.Stream.{all_text, links, objects, programs};
ghost use Rattle.workload_calls.specs.Stream.{program_path, program_text, put_all, put_object};
ghost use Rattle.workload_calls.specs.Stream.{operands, put_program, stream_bytes, twice, workload};
ghost use Rattle.workload_calls.specs.Stream.{AddsFrames};

use crate::names::numbered;
use crate::objects::object;
use count_lines::push_count;
use omos_base::{Bytes, NoMemory};
use omos_wire::{Request, request_frame};
use std::alloc::Global;

/// Appends the frame of a request.
fn push_request(alloc: Global, stream: &mut Bytes, request: &Request<'_>) -> Result<(), NoMemory>
    requires { HasFrame (message_of request.now) }
    ensures { OnOk result (AddsFrames stream.old stream.new (message_of request.now ∷ [])) }
{
    let frame = request_frame(alloc, request)?;
    stream.push_slice(frame.as_slice())
}

/// Appends the frame that publishes an object.
fn push_object(alloc: Global, stream: &mut Bytes, n: u32, i: u32) -> Result<(), NoMemory>
    requires there { i < n }
    requires few { n ≤ 200 }
    ensures { OnOk result (AddsFrames stream.old stream.new (put_object n i ∷ [])) }
{
    let path = numbered(alloc, b"/o/", i)?;
    let object = object(alloc, n, i)?;
    let request = Request::PutObject {
        path: path.as_slice(),
        object: object.as_slice(),
    };
    push_request(alloc, stream, &request)
}

/// Appends the frames that publish the objects.
fn push_objects(alloc: Global, stream: &mut Bytes, n: u32) -> Result<(), NoMemory>
    requires { n ≤ 200 }
    ensures { OnOk result (AddsFrames stream.old stream.new (objects n)) }
{
    'objects: for i in 0..n {
        push_object(alloc, stream, n, i)?;
    }
    Ok(())
}

/// The paths of all objects, each behind a blank.
fn operands(alloc: Global, n: u32) -> Result<Bytes, NoMemory>
    requires { n ≤ 200 }
    ensures made { IfOk result (λ text. text ≡ operands n) }
    ensures short { IfOk result (λ text. length text ≤ 14 * n) }
{
    let mut text = Bytes::new(alloc);
    'operands: for i in 0..n {
        push_count(&mut text, b" /o/", u64::from(i))?;
    }
    Ok(text)
}

/// The blueprint that joins all objects.
fn all_text(alloc: Global, n: u32) -> Result<Bytes, NoMemory>
    requires { n ≤ 200 }
    ensures made { IfOk result (λ text. text ≡ all_text n) }
    ensures short { IfOk result (λ text. length text ≤ 4096) }
{
    if n == 1 {
        return Bytes::from_slice(alloc, b"(image /o/0)");
    }
    let mut text = Bytes::from_slice(alloc, b"(image (merge")?;
    text.push_slice(operands(alloc, n)?.as_slice())?;
    text.push_slice(b"))")?;
    Ok(text)
}

/// Appends the frame that publishes the blueprint that joins all objects.
fn push_all(alloc: Global, stream: &mut Bytes, n: u32) -> Result<(), NoMemory>
    requires { n ≤ 200 }
    ensures { OnOk result (AddsFrames stream.old stream.new (put_all n ∷ [])) }
{
    let text = all_text(alloc, n)?;
    let request = Request::PutBlueprint {
        path: b"/all",
        text: text.as_slice(),
    };
    push_request(alloc, stream, &request)
}

/// The blueprint in which one object stands before all others, and its function is frozen.
fn program_text(alloc: Global, i: u32) -> Result<Bytes, NoMemory>
    ensures made { IfOk result (λ text. text ≡ program_text i) }
    ensures short { IfOk result (λ text. length text ≤ 100) }
{
    let mut text = Bytes::new(alloc);
    push_count(&mut text, b"(image (freeze f", u64::from(i))?;
    push_count(&mut text, b" (override /all /o/", u64::from(i))?;
    text.push_slice(b")))")?;
    Ok(text)
}

/// Appends the frame that publishes the blueprint of one object.
fn push_program(alloc: Global, stream: &mut Bytes, i: u32) -> Result<(), NoMemory>
    ensures { OnOk result (AddsFrames stream.old stream.new (put_program i ∷ [])) }
{
    let path = numbered(alloc, b"/p/", i)?;
    let text = program_text(alloc, i)?;
    let request = Request::PutBlueprint {
        path: path.as_slice(),
        text: text.as_slice(),
    };
    push_request(alloc, stream, &request)
}

/// Appends the frames that publish the blueprints.
fn push_programs(alloc: Global, stream: &mut Bytes, n: u32) -> Result<(), NoMemory>
    requires { n ≤ 200 }
    ensures { OnOk result (AddsFrames stream.old stream.new (programs n)) }
{
    push_all(alloc, stream, n)?;
    'programs: for i in 1..n {
        push_program(alloc, stream, i)?;
    }
    Ok(())
}

/// Appends the frames that link a path twice.
fn push_twice(alloc: Global, stream: &mut Bytes, path: &[u8]) -> Result<(), NoMemory>
    requires { length path.now < 65536 }
    ensures { OnOk result (AddsFrames stream.old stream.new (twice path.now)) }
{
    let request = Request::Link { path };
    push_request(alloc, stream, &request)?;
    push_request(alloc, stream, &request)
}

/// Appends the frames that link the program of one object twice.
fn push_links_of(alloc: Global, stream: &mut Bytes, i: u32) -> Result<(), NoMemory>
    ensures { OnOk result (AddsFrames stream.old stream.new (twice (program_path i))) }
{
    let path = numbered(alloc, b"/p/", i)?;
    push_twice(alloc, stream, path.as_slice())
}

/// Appends the frames that link.
fn push_links(alloc: Global, stream: &mut Bytes, n: u32) -> Result<(), NoMemory>
    requires { n ≤ 200 }
    ensures { OnOk result (AddsFrames stream.old stream.new (links n)) }
{
    push_twice(alloc, stream, b"/all")?;
    'links: for i in 1..n {
        push_links_of(alloc, stream, i)?;
    }
    Ok(())
}

/// Appends the frames that ask for the counts and end the session.
fn push_end(alloc: Global, stream: &mut Bytes) -> Result<(), NoMemory>
    ensures { OnOk result (AddsFrames stream.old stream.new (Stats ∷ End ∷ [])) }
{
    push_request(alloc, stream, &Request::Stats)?;
    push_request(alloc, stream, &Request::End)
}

/// The frames of workload `n`, a session of 4n + 2 requests.
///
/// It publishes the objects `/o/0` to `/o/(n - 1)`, of which each calls the next and the last calls
/// the first; the blueprint `/all` that joins them; and for each object but the first a blueprint
/// `/p/I` that puts it into the place of its namesakes among all. Each blueprint is then linked
/// twice, one after the other, and the counts are asked for.
pub fn stream(alloc: Global, n: u32) -> Result<Bytes, NoMemory>
    requires some { 1 ≤ n }
    requires few { n ≤ 200 }
    ensures frames { IfOk result (λ bytes. bytes ≡ stream_bytes n) }
    ensures fits { IfOk result (λ _. AllByRecursion HasFrame (workload n)) }
{
    let mut stream = Bytes::new(alloc);
    push_objects(alloc, &mut stream, n)?;
    push_programs(alloc, &mut stream, n)?;
    push_links(alloc, &mut stream, n)?;
    push_end(alloc, &mut stream)?;
    Ok(stream)
}
