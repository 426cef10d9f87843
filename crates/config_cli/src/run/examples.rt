//! The products of `examples/`, each checked as a product engineer would, and the small one
//! configured.
pub(super) mod card_rack;
mod control_cabinet;
mod lift;
mod network_rack;
mod server_chassis;

use super::check_rows::Told;
use super::checks::check_told;
use super::products::{Answered, check_answered};
use crate::status::Status;
use std::test::Fail;

const GOOD: [Told; 5] = [
    (
        card_rack::MODEL,
        card_rack::ORDER,
        card_rack::GOOD,
        "satisfied\ncost_eur=86\n",
    ),
    (
        server_chassis::MODEL,
        server_chassis::ORDER,
        server_chassis::GOOD,
        "satisfied\ncost_cents=980000\nload_watts=838\nstorage_gigabytes=15360\n",
    ),
    (
        lift::MODEL,
        lift::ORDER,
        lift::GOOD,
        "satisfied\ncost_eur=42530\npower_w=6700\npersons=10\n",
    ),
    (
        control_cabinet::MODEL,
        control_cabinet::ORDER,
        control_cabinet::GOOD,
        "satisfied\ncost_cents=563700\nheat_w=216\nfree_rail_mm=625\n",
    ),
    (
        network_rack::MODEL,
        network_rack::ORDER,
        network_rack::GOOD,
        "satisfied\ncost_cents=7698700\nload_watts=4995\nfree_units=20\n",
    ),
];

#[test]
fn products_meet_what_customers_want(rt: HostRuntime) -> Result<(), Fail> {
    Ok(check_told(&rt, rt.alloc(), &GOOD, Status::Satisfied)?)
}

const BAD: [Told; 5] = [
    (
        card_rack::MODEL,
        card_rack::ORDER,
        card_rack::BAD,
        "broken B11 0 twenty\n",
    ),
    (
        server_chassis::MODEL,
        server_chassis::ORDER,
        server_chassis::BAD,
        "broken B10 0 one_supply_carries_all\n",
    ),
    (lift::MODEL, lift::ORDER, lift::BAD, "broken B06 1 brakes\n"),
    (
        control_cabinet::MODEL,
        control_cabinet::ORDER,
        control_cabinet::BAD,
        "broken B11 0 a_fifth_of_the_rails_free\n",
    ),
    (
        network_rack::MODEL,
        network_rack::ORDER,
        network_rack::BAD,
        "broken B12 9 patched_to\n",
    ),
];

#[test]
fn products_with_mistakes_are_told(rt: HostRuntime) -> Result<(), Fail> {
    Ok(check_told(&rt, rt.alloc(), &BAD, Status::Broken)?)
}

const CONFIGURED: [Answered; 1] = [(card_rack::MODEL, card_rack::ORDER, card_rack::GOOD)];

#[test]
fn a_small_product_is_configured(rt: HostRuntime) -> Result<(), Fail> {
    Ok(check_answered(&rt, rt.alloc(), &CONFIGURED, Status::Preferred)?)
}

const CLASHING: [Answered; 1] = [(card_rack::MODEL, card_rack::CLASH, card_rack::CLASHING)];

#[test]
fn wishes_that_clash_are_told(rt: HostRuntime) -> Result<(), Fail> {
    Ok(check_answered(&rt, rt.alloc(), &CLASHING, Status::Conflict)?)
}
