// What was met: a number and its place; without a number 0, and how many bytes were written.
use tree::Refusal;

pub fn of_read(answer: Result<(), Refusal>) -> Refusal {
    match answer {
        Ok(()) => Refusal {
            number: 0,
            place: 0,
        },
        Err(r) => r,
    }
}

pub fn of_written(answer: Result<usize, Refusal>) -> Refusal {
    match answer {
        Ok(n) => Refusal {
            number: 0,
            place: n,
        },
        Err(r) => r,
    }
}

// Is it what is told, with this sum?
pub fn is_told(met: Refusal, sum: u32, told: &[u8]) -> bool {
    match told {
        [number, a, b, c, d, e, f, g, h] => {
            met.number == u32::from(*number)
                && met.place == u32::from_be_bytes([*a, *b, *c, *d]) as usize
                && sum == u32::from_be_bytes([*e, *f, *g, *h])
        }
        _ => false,
    }
}
