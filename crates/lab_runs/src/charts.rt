//! A chart of a schedule, as SVG: a row for each task, time to scale.
use crate::reports::name_of;
use crate::texts::Text;
use crate::times::{put_time, put_units};
use lab_schedules::{Event, Job, Schedule, Stretch, What};
use lab_tasks::Act;
use std::alloc::{AllocError, Global};

// The place where time begins, and how wide it is; how high a row is, and where the first one begins.
const LEFT: u64 = 120;

const WIDE: u64 = 1_120;

const ROW: u64 = 46;

const TOP: u64 = 34;

const STYLE: &str =
    "<style>text{font:13px sans-serif;fill:#222}.axis{stroke:#999}.row{stroke:#ddd}.run{fill:#4a7fb5}.hold{fill:#d98e04}.wait{stroke:#888;stroke-dasharray:3 2}.release{stroke:#222;fill:none}.deadline{stroke:#777;fill:none}.missed{stroke:#c00;stroke-width:3;fill:none}</style>\n";

// Begins an attribute.
fn put_name(svg: &mut Text, name: &str) {
    svg.put_char(' ');
    svg.put(name);
    svg.put("=\"");
}

// Begins an element of a class.
fn put_element(svg: &mut Text, element: &str, class: &str) {
    svg.put_char('<');
    svg.put(element);
    put_name(svg, "class");
    svg.put(class);
    svg.put_char('"');
}

// Appends an attribute with a number.
fn put_attribute(svg: &mut Text, name: &str, number: u64) {
    put_name(svg, name);
    svg.put_number(number);
    svg.put_char('"');
}

// The place of a date, in tenths of a pixel.
fn place_of(schedule: &Schedule, date: u64) -> u64 {
    let whole = schedule.date.max(1);
    let along = date.min(whole) as u128 * (WIDE as u128 * 10) / whole as u128;
    LEFT * 10 + along.min(WIDE as u128 * 10) as u64
}

// Appends an attribute with a place.
fn put_place(svg: &mut Text, name: &str, place: u64) {
    put_name(svg, name);
    put_units(svg, place, 10);
    svg.put_char('"');
}

// The middle of the row of a task.
fn row_of(task: usize) -> u64 {
    (task.min(100_000) as u64) * ROW + TOP + ROW / 2
}

// Appends a text as XML has it.
fn put_escaped(svg: &mut Text, text: &str) {
    for c in text.chars() {
        match c {
            '&' => svg.put("&amp;"),
            '<' => svg.put("&lt;"),
            '>' => svg.put("&gt;"),
            _ => svg.put_char(c),
        }
    }
}

// Appends a bar from one date to another, so high, with its title.
fn put_bar(svg: &mut Text, class: &str, from: u64, to: u64, top: u64, high: u64) {
    put_element(svg, "rect", class);
    put_place(svg, "x", from);
    put_place(svg, "width", to.saturating_sub(from));
    put_attribute(svg, "y", top);
    put_attribute(svg, "height", high);
    svg.put_char('>');
}

// Appends the title of a job and its times, and ends the bar.
fn put_title(svg: &mut Text, schedule: &Schedule, run: &Stretch) {
    svg.put("<title>");
    put_escaped(svg, name_of(schedule, run.task));
    svg.put(" job ");
    svg.put_number(run.job.saturating_add(1));
    svg.put(": ");
    put_time(svg, run.from);
    svg.put(" to ");
    put_time(svg, run.to);
    svg.put("</title></rect>\n");
}

// Appends the bars of all times of computing.
fn put_runs(svg: &mut Text, schedule: &Schedule) {
    for run in &schedule.runs {
        let top = row_of(run.task).saturating_sub(9);
        put_bar(
            svg,
            "run",
            place_of(schedule, run.from),
            place_of(schedule, run.to),
            top,
            18,
        );
        put_title(svg, schedule, run);
    }
}

// The mutex that an act locks or unlocks, and whether it locks it.
fn mutex_of(schedule: &Schedule, event: &Event, act: usize) -> Option<(u16, bool)> {
    let task = schedule.rules.tasks.get(event.task)?;
    match task.does.get(act)? {
        Act::Lock(mutex) => Some((mutex.0, true)),
        Act::Unlock(mutex) => Some((mutex.0, false)),
        _ => None,
    }
}

// The mutex that an event gives its task, if it does.
fn locked_by(schedule: &Schedule, event: &Event) -> Option<u16> {
    match event.what {
        What::Does(act) => match mutex_of(schedule, event, act)? {
            (mutex, true) => Some(mutex),
            _ => None,
        },
        _ => None,
    }
}

// Whether an event of a task gives a mutex back.
fn unlocks(schedule: &Schedule, event: &Event, task: usize, mutex: u16) -> bool {
    if event.task != task {
        return false;
    }
    match event.what {
        What::Does(act) => mutex_of(schedule, event, act) == Some((mutex, false)),
        _ => false,
    }
}

// When a task gives a mutex back that it has got by the event at a place: the end of the run where it doesn't.
fn unlocked_at(schedule: &Schedule, place: usize, task: usize, mutex: u16) -> u64 {
    for event in schedule.events.iter().skip(place) {
        if unlocks(schedule, event, task, mutex) {
            return event.date;
        }
    }
    schedule.date
}

// Appends a bar for a mutex that a task holds, below its row.
fn put_hold(svg: &mut Text, schedule: &Schedule, task: usize, mutex: u16, times: (u64, u64)) {
    put_bar(
        svg,
        "hold",
        place_of(schedule, times.0),
        place_of(schedule, times.1),
        row_of(task).saturating_add(10),
        5,
    );
    svg.put("<title>holds mutex ");
    svg.put_number(u64::from(mutex));
    svg.put("</title></rect>\n");
}

// Appends the bars of all mutexes that tasks hold.
fn put_holds(svg: &mut Text, schedule: &Schedule) {
    for (place, event) in schedule.events.iter().enumerate() {
        if let Some(mutex) = locked_by(schedule, event) {
            let until = unlocked_at(schedule, place, event.task, mutex);
            put_hold(svg, schedule, event.task, mutex, (event.date, until));
        }
    }
}

// Appends a line.
fn put_line(svg: &mut Text, class: &str, from: (u64, u64), to: (u64, u64)) {
    put_element(svg, "line", class);
    put_place(svg, "x1", from.0);
    put_attribute(svg, "y1", from.1);
    put_place(svg, "x2", to.0);
    put_attribute(svg, "y2", to.1);
    svg.put("/>\n");
}

// When an act of a task that has begun is over: the next event of the task, or the end of the run.
fn over_at(schedule: &Schedule, place: usize, task: usize) -> u64 {
    for event in schedule.events.iter().skip(place.saturating_add(1)) {
        if event.task == task {
            return event.date;
        }
    }
    schedule.date
}

// Whether an act is a computation.
fn computes(schedule: &Schedule, event: &Event, act: usize) -> bool {
    match schedule.rules.tasks.get(event.task) {
        Some(task) => matches!(task.does.get(act), Some(Act::Run(_))),
        None => false,
    }
}

// Appends a thin line for each wait.
fn put_waits(svg: &mut Text, schedule: &Schedule) {
    for (place, event) in schedule.events.iter().enumerate() {
        if let What::Begins(act) = event.what {
            if !computes(schedule, event, act) {
                let row = row_of(event.task);
                let until = place_of(schedule, over_at(schedule, place, event.task));
                put_line(
                    svg,
                    "wait",
                    (place_of(schedule, event.date), row),
                    (until, row),
                );
            }
        }
    }
}

// Appends an arrow at a date, up at a release, down at a deadline.
fn put_arrow(svg: &mut Text, class: &str, place: u64, row: u64, is_up: bool) {
    let (foot, head) = (row.saturating_add(12), row.saturating_sub(18));
    put_line(svg, class, (place, foot), (place, head));
    let (tip, wings) = if is_up {
        (head, head.saturating_add(5))
    } else {
        (foot, foot.saturating_sub(5))
    };
    put_line(svg, class, (place.saturating_sub(30), wings), (place, tip));
    put_line(svg, class, (place.saturating_add(30), wings), (place, tip));
}

// Appends the arrows of a job.
fn put_job(svg: &mut Text, schedule: &Schedule, job: &Job) {
    let row = row_of(job.task);
    put_arrow(svg, "release", place_of(schedule, job.release), row, true);
    match job.deadline {
        Some(date) if date <= schedule.date => {
            let class = if job.late { "missed" } else { "deadline" };
            put_arrow(svg, class, place_of(schedule, date), row, false)
        }
        _ => {}
    }
}

// The names of the rows, and a line for each.
fn put_rows(svg: &mut Text, schedule: &Schedule) {
    for (task, is) in schedule.rules.tasks.iter().enumerate() {
        let row = row_of(task);
        put_line(
            svg,
            "row",
            (LEFT * 10, row.saturating_add(16)),
            ((LEFT + WIDE) * 10, row.saturating_add(16)),
        );
        svg.put("<text x=\"8\"");
        put_attribute(svg, "y", row.saturating_add(5));
        svg.put_char('>');
        put_escaped(svg, is.name.as_str());
        svg.put("</text>\n");
    }
}

// How far two marks of the axis are apart: 1, 2 or 5 of a power of ten, at most twelve on the axis.
fn mark_every(date: u64) -> u64 {
    let mut every: u64 = 1;
    for step in 0..57 {
        if date / every.max(1) <= 12 {
            break;
        }
        every = if step % 3 == 1 {
            every.saturating_mul(5) / 2
        } else {
            every.saturating_mul(2)
        };
    }
    every
}

// Appends the axis with its marks.
fn put_axis(svg: &mut Text, schedule: &Schedule, bottom: u64) {
    let every = mark_every(schedule.date).max(1);
    let mut date: u64 = 0;
    for _ in 0..14 {
        if date > schedule.date {
            break;
        }
        let place = place_of(schedule, date);
        put_line(svg, "axis", (place, TOP - 8), (place, bottom));
        svg.put("<text");
        put_place(svg, "x", place);
        svg.put(" y=\"18\" text-anchor=\"middle\">");
        put_time(svg, date);
        svg.put("</text>\n");
        date = date.saturating_add(every);
    }
}

// Begins a picture that ends at this height, and draws the axis.
fn put_head(svg: &mut Text, schedule: &Schedule, bottom: u64) {
    svg.put("<svg xmlns=\"http://www.w3.org/2000/svg\"");
    put_attribute(svg, "width", LEFT + WIDE + 40);
    put_attribute(svg, "height", bottom);
    svg.put(">\n");
    svg.put(STYLE);
    svg.put("<rect width=\"100%\" height=\"100%\" fill=\"#fff\"/>\n");
    put_axis(svg, schedule, bottom.saturating_sub(ROW / 2));
}

// Draws rows, and what happens in them.
fn put_layers(svg: &mut Text, schedule: &Schedule, jobs: &[Job]) {
    put_rows(svg, schedule);
    put_waits(svg, schedule);
    put_runs(svg, schedule);
    put_holds(svg, schedule);
    for job in jobs {
        put_job(svg, schedule, job);
    }
    svg.put("</svg>\n");
}

/// The chart of a schedule and its jobs: bars where tasks compute, below them the mutexes that they hold, dashed where they
/// wait, an arrow up at a release, down at a deadline, red where it is missed; each bar has a title.
pub fn chart_of(alloc: Global, schedule: &Schedule, jobs: &[Job]) -> Result<String, AllocError> {
    let mut svg = Text::new(alloc);
    put_head(&mut svg, schedule, row_of(schedule.rules.tasks.len()));
    put_layers(&mut svg, schedule, jobs);
    svg.finish()
}
