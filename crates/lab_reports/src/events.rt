//! Marks of a trace as trace events, which viewers of timelines read.
ghost use Rattle.std.specs.Prelude.{◌≡◌, ◌≤◌, ◌++◌, [], IfOk, OnOk, string_bytes};
ghost use Rattle.std.specs.Str.{trim_start};
ghost use Rattle.lab_reports.specs.Events as events;
ghost use Rattle.lab_reports.specs.Events.{event_text, events_from, events_text, name_text, names_text, event_noted, order_text, track, track_place, wait_event, wait_text};

use crate::quotes::put_text;
use evl_base::Stage;
use lab_drawing::{Lane, Mark, Shape};
use std::alloc::{AllocError, Global};
use std::fmt;

// The kind of a lane's track, and its number there.
fn track_place(lane: Lane) -> (u32, u16)
    ensures place { result ≡ track_place lane }
    ensures few { result.0 ≤ 12 }
{
    match lane {
        Lane::Thread(number) => (0, number),
        Lane::Mutex(number) => (1, number),
        Lane::Sem(number) => (2, number),
        Lane::Flags(number) => (3, number),
        Lane::Xbuf(number) => (4, number),
        Lane::Timer(number) => (5, number),
        Lane::Clock => (6, 0),
        Lane::Stage(Stage::Oob) => (7, 0),
        Lane::Stage(Stage::Inband) => (8, 0),
        Lane::Stax(number) => (9, number),
        Lane::Core => (10, 0),
        Lane::Line(Stage::Oob, number) => (11, number),
        Lane::Line(Stage::Inband, number) => (12, number),
    }
}

// The number of a lane's track: a kind has 65,536 tracks.
fn track_of(lane: Lane) -> u32
    ensures { result ≡ track lane }
{
    let (kind, number) = track_place(lane);
    kind * 65_536 + u32::from(number)
}

// The category of an event, and its colour, of those that viewers name.
#[derive(Drop)]
struct Look(Shape);

impl fmt::Display for Look {
    ghost use Rattle.std.specs.Prelude.{Some};
    ghost use Rattle.lab_reports.specs.Events.{look_text};

    ghost output = { λ look. Some (look_text look.0) };

    fn fmt<W: fmt::Write>(&self, f: &mut fmt::Formatter<W>) -> fmt::Result {
        let words = match self.0 {
            Shape::Answered => "\"cat\": \"answered\", \"cname\": \"good\"",
            Shape::Begun => "\"cat\": \"begun\", \"cname\": \"thread_state_runnable\"",
            Shape::Ended => "\"cat\": \"ended\", \"cname\": \"thread_state_runnable\"",
            Shape::Refused => "\"cat\": \"refused\", \"cname\": \"terrible\"",
            Shape::Arrived => "\"cat\": \"arrived\", \"cname\": \"good\"",
            Shape::Spurious => "\"cat\": \"spurious\", \"cname\": \"bad\"",
            Shape::Played => "\"cat\": \"played\", \"cname\": \"rail_response\"",
            Shape::Unhandled => "\"cat\": \"unhandled\", \"cname\": \"grey\"",
        };
        f.write_str(words)
    }
}

// The number of a track.
#[derive(Drop)]
struct Track(Lane);

impl fmt::Display for Track {
    ghost use Rattle.std.specs.Prelude.{Some};
    ghost use Rattle.std.specs.Fmt.{decimal};
    ghost use Rattle.lab_reports.specs.Events.{track};

    ghost output = { λ lane. Some (decimal (track lane.0)) };

    fn fmt<W: fmt::Write>(&self, f: &mut fmt::Formatter<W>) -> fmt::Result {
        let track = track_of(self.0);
        write!(f, "{track}")
    }
}

// The track of an event.
#[derive(Drop)]
struct OnTrack(Lane);

impl fmt::Display for OnTrack {
    ghost use Rattle.std.specs.Prelude.{Some};
    ghost use Rattle.lab_reports.specs.Events.{on_track};

    ghost output = { λ at. Some (on_track at.0) };

    fn fmt<W: fmt::Write>(&self, f: &mut fmt::Formatter<W>) -> fmt::Result {
        let track = track_of(self.0);
        write!(f, "\"pid\": 1, \"tid\": {track}")
    }
}

// The track and the time of an event.
#[derive(Drop)]
struct At {
    lane: Lane,
    row: usize,
}

impl fmt::Display for At {
    ghost use Rattle.std.specs.Prelude.{Some};
    ghost use Rattle.lab_reports.specs.Events.{at_text};

    ghost output = { λ at. Some (at_text at.lane at.row) };

    fn fmt<W: fmt::Write>(&self, f: &mut fmt::Formatter<W>) -> fmt::Result {
        let track = OnTrack(self.lane);
        let row = self.row;
        write!(f, "{track}, \"ts\": {row}")
    }
}

// Writes the name of the track of a lane.
fn put_name(json: &mut String, lane: Lane) -> Result<(), AllocError>
    ensures { OnOk result (string_bytes json.new ≡ string_bytes json.old ++ name_text lane) }
{
    let at = OnTrack(lane);
    write!(
        json,
        "{{\"ph\": \"M\", \"name\": \"thread_name\", {at}, \"args\": {{\"name\": \"{lane}\"}}}},\n"
    )?;
    Ok(())
}

// Writes the place of the track of a lane among the tracks.
fn put_order(json: &mut String, lane: Lane) -> Result<(), AllocError>
    ensures { OnOk result (string_bytes json.new ≡ string_bytes json.old ++ order_text lane) }
{
    let at = OnTrack(lane);
    let track = Track(lane);
    write!(
        json,
        "{{\"ph\": \"M\", \"name\": \"thread_sort_index\", {at}, \"args\": {{\"sort_index\": {track}}}}},\n"
    )?;
    Ok(())
}

// Writes what names the track of a lane, where it has no name yet.
fn put_names(json: &mut String, named: &mut Vec<u32>, lane: Lane) -> Result<(), AllocError>
    ensures text { OnOk result (string_bytes json.new ≡ string_bytes json.old ++ names_text named.old.items lane) }
    ensures noted { OnOk result (named.new.items ≡ event_noted named.old.items (track lane)) }
{
    let track = track_of(lane);
    if named.contains(&track) {
        return Ok(());
    }
    named.push(track)?;
    put_name(json, lane)?;
    put_order(json, lane)
}

// Writes the event of a mark, of one unit of time.
fn put_event(
    alloc: Global,
    json: &mut String,
    row: usize,
    mark: &Mark<'_>,
) -> Result<(), AllocError>
    ensures { OnOk result (string_bytes json.new ≡ string_bytes json.old ++ event_text row mark.now) }
{
    let look = Look(mark.shape);
    let at = At {
        lane: mark.lane,
        row,
    };
    json.push_str("{\"ph\": \"X\", \"name\": ")?;
    put_text(alloc, json, mark.line.trim_start())?;
    write!(json, ", {look}, {at}, \"dur\": 1}},\n")?;
    Ok(())
}

// Writes that a wait of a lane begins or ends, as the phase says.
fn put_phase(json: &mut String, phase: &str, row: usize, lane: Lane) -> Result<(), AllocError>
    ensures { OnOk result (string_bytes json.new ≡ string_bytes json.old ++ wait_event phase.now row lane) }
{
    let track = Track(lane);
    let at = At { lane, row };
    write!(
        json,
        "{{\"ph\": \"{phase}\", \"cat\": \"wait\", \"name\": \"wait\", \"id\": {track}, {at}}},\n"
    )?;
    Ok(())
}

// Writes where a wait of a thread begins or ends.
fn put_wait(json: &mut String, row: usize, mark: &Mark<'_>) -> Result<(), AllocError>
    ensures { OnOk result (string_bytes json.new ≡ string_bytes json.old ++ wait_text row mark.now mark.now.shape) }
{
    match mark.shape {
        Shape::Begun => put_phase(json, "b", row, mark.lane),
        Shape::Ended => put_phase(json, "e", row, mark.lane),
        _ => Ok(()),
    }
}

// Writes the events of all marks, each new track with its name.
fn put_marks(alloc: Global, json: &mut String, marks: &[Mark<'_>]) -> Result<(), AllocError>
    ensures { OnOk result (string_bytes json.new ≡ string_bytes json.old ++ events_from [] 1 marks.now) }
{
    let mut named = Vec::new(alloc);
    for (index, mark) in marks.iter().enumerate() {
        put_names(json, &mut named, mark.lane)?;
        put_event(alloc, json, index + 1, mark)?;
        put_wait(json, index + 1, mark)?;
    }
    Ok(())
}

/// Marks as trace events in JSON: a track for each lane with its name, an event of one unit of time for each mark, at
/// the number of its row, and where a wait begins and ends. `AllocError` where memory couldn't grow.
pub fn write_events(alloc: Global, marks: &[Mark<'_>]) -> Result<String, AllocError>
    ensures { IfOk result (λ json. string_bytes json ≡ events_text marks.now) }
{
    let mut json = String::from_str(alloc, "{\"traceEvents\": [\n")?;
    put_marks(alloc, &mut json, marks)?;
    json.push_str(
        "{\"ph\": \"M\", \"name\": \"process_name\", \"pid\": 1, \"args\": {\"name\": \"machine\"}}\n]}\n",
    )?;
    Ok(json)
}
