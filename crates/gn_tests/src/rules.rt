//! Limits of a configuration.

use crate::compare::wrong_at;
use gn_fixtures::OWN;
use gn_rules::{BadConfig, Config, Field};
use std::test::Fail;

/// Neighbours, seen, servents, stage, out, steps and crowd, and the first of them that is bad.
static ROWS: [([u32; 7], Option<Field>); 10] = [
    ([4, 8, 4, 8, 8, 100, 0], None),
    ([256, 65_536, 65_536, 4_096, 4_096, u32::MAX, 4_096], None),
    ([0, 0, 4, 8, 8, 100, 0], Some(Field::Neighbours)),
    ([257, 8, 4, 8, 8, 100, 0], Some(Field::Neighbours)),
    ([4, 65_537, 4, 8, 8, 100, 0], Some(Field::Seen)),
    ([4, 8, 0, 0, 8, 100, 0], Some(Field::Servents)),
    ([4, 8, 4, 4_097, 8, 100, 0], Some(Field::Stage)),
    ([4, 8, 4, 8, 4_097, 0, 0], Some(Field::Out)),
    ([4, 8, 4, 8, 8, 0, 4_097], Some(Field::Steps)),
    ([4, 8, 4, 8, 8, 1_000_001, 4_097], Some(Field::Crowd)),
];

/// The first bad number of a configuration.
fn first_bad(numbers: [u32; 7]) -> Option<Field> {
    let [neighbours, seen, servents, stage, out, steps, crowd] = numbers;
    match Config::new(
        neighbours, seen, servents, stage, out, steps, 255, crowd, OWN,
    ) {
        Ok(_) => None,
        Err(BadConfig(field)) => Some(field),
    }
}

#[test]
fn the_first_bad_number_is_named() -> Result<(), Fail> {
    for (number, (numbers, bad)) in ROWS.iter().enumerate() {
        if first_bad(*numbers) != *bad {
            return Err(wrong_at(number));
        }
    }
    Ok(())
}
