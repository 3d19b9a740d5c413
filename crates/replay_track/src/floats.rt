// The values of the table of sizes, by number.

pub fn float(number: u32) -> f32 {
    match number {
        0 => 0.0,
        1 => -0.0,
        2 => 8.0,
        // the next f32 above 8
        3 => 8.000001,
        4 => -8.0,
        5 => -12.5,
        6 => 12.5,
        7 => 0.1,
        // the f32 below that of 0.1
        8 => 0.099999994,
        9 => 80.0,
        10 => 999999.0,
        11 => 1000000.0,
        12 => 1234567.0,
        13 => 0.0000000001,
        14 => 0.00000000001,
        15 => divided(1.0, 0.0),
        16 => divided(-1.0, 0.0),
        _ => divided(0.0, 0.0),
    }
}

// By 0 an infinity, or where 0 is divided no number.
fn divided(a: f32, b: f32) -> f32 {
    a / b
}
