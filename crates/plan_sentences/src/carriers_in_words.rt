// The rules on carriers in words, for a carrier that fails one.
use carrier_plan::{Carrier, Method, Plan};
use plan_checker::Figures;
use std::alloc::{AllocError, Global};

/// What fails at carrier `c` by these figures, and what the rule allows.
pub fn carrier_in_words(
    alloc: Global,
    plan: &Plan,
    c: usize,
    figures: Figures,
) -> Result<String, AllocError> {
    let Some(carrier) = plan.carriers.as_slice().get(c) else {
        return String::from_str(alloc, "the plan has no such carrier");
    };
    match figures {
        Figures::SampleRate {
            s,
            k,
            divides,
            most,
        } => sample_rate(alloc, s, k, divides, most),
        Figures::SampleWidth { m } => format!(in alloc; "its m is {m}, and has to be 4 to 20"),
        Figures::ContainerSize {
            pieces,
            empty,
            size,
            prescribed,
        } => container_size(alloc, carrier, pieces, empty, size, prescribed),
        Figures::ContainerEnd { .. } => container_end(alloc, carrier, figures),
        _ => separate_bits(alloc, plan, c, figures),
    }
}

fn sample_rate(
    alloc: Global,
    s: u32,
    k: u32,
    divides: bool,
    most: u64,
) -> Result<String, AllocError> {
    if !divides {
        format!(in alloc; "its k is {k}, and has to divide 38400")
    } else if k > 96 {
        format!(in alloc; "its k is {k}, and has to be at most 96")
    } else if s == 0 || u64::from(s) > most {
        format!(in alloc; "its s is {s}, and has to be 1 to 32 * k = {most}")
    } else {
        format!(in alloc; "its rate s/k is {s}/{k}, and has to be in lowest terms")
    }
}

fn container_size(
    alloc: Global,
    carrier: &Carrier,
    pieces: usize,
    empty: Option<usize>,
    size: u64,
    prescribed: u32,
) -> Result<String, AllocError> {
    if !(1..=4).contains(&pieces) {
        return format!(in alloc; "it has {pieces} pieces, and has to have 1 to 4");
    }
    if pieces > 1
        && let Some(piece) = empty
    {
        return format!(in alloc; "its piece {piece} has size 0, and has to have a bit");
    }
    let sum = if pieces == 1 {
        format!(in alloc; "its size is {size}")?
    } else {
        format!(in alloc; "the sizes of its {pieces} pieces add up to {size}")?
    };
    let rule = prescription(alloc, carrier)?;
    format!(in alloc; "{sum}, and {prescribed} is prescribed, {rule}")
}

// How the bits of a container come of its rate and width, by its method.
fn prescription(alloc: Global, carrier: &Carrier) -> Result<String, AllocError> {
    let Carrier { s, k, m, .. } = carrier;
    match carrier.method {
        Method::Sample => format!(in alloc; "2 * ceil({m} * {s} / {k}) by method 1"),
        Method::Compatible => format!(in alloc; "2 * {m} * ceil({s} / {k}) by method 3"),
    }
}

fn container_end(alloc: Global, carrier: &Carrier, figures: Figures) -> Result<String, AllocError> {
    let Figures::ContainerEnd {
        piece,
        start,
        size,
        end,
        bits,
        option,
    } = figures
    else {
        return String::from_str(alloc, "its container has to end within the frame");
    };
    let part = if carrier.pieces.len() == 1 {
        String::from_str(alloc, "its start + size is")?
    } else {
        format!(in alloc; "start + size of its piece {piece} is")?
    };
    format!(in alloc;
        "{part} {start} + {size} = {end}, and has to be at most {bits}, the IQ bits of a frame on option {option}"
    )
}

fn separate_bits(
    alloc: Global,
    plan: &Plan,
    c: usize,
    figures: Figures,
) -> Result<String, AllocError> {
    let Figures::SeparateBits {
        piece,
        carrier,
        earlier,
        first,
        last,
    } = figures
    else {
        return String::from_str(
            alloc,
            "its bits and those of earlier carriers have to be apart",
        );
    };
    let own = part_in_words(alloc, plan, c, piece)?;
    let other = part_in_words(alloc, plan, carrier, earlier)?;
    format!(in alloc; "{own} and {other} share the IQ bits {first} to {last}, and have to be apart")
}

// A carrier, or the piece of it where it has several.
fn part_in_words(
    alloc: Global,
    plan: &Plan,
    carrier: usize,
    piece: usize,
) -> Result<String, AllocError> {
    match plan.carriers.as_slice().get(carrier) {
        Some(it) if it.pieces.len() > 1 => {
            format!(in alloc; "piece {piece} of carrier {carrier}")
        }
        _ => format!(in alloc; "carrier {carrier}"),
    }
}
