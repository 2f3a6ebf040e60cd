// Each kind of question by its number.
use crate::record::Question;
use crate::{
    certificates, chains, countries, days, images, items, lists, proposals, rooms, say, signers,
    trays, versions, writing,
};
use std::io;
use std::io::Print;

pub(crate) fn answer<R: Print>(rt: &R, question: Question, bytes: &[u8]) -> io::Result<()> {
    let kind = question.kind;
    let first = question.first;
    let second = question.second;
    let third = question.third;
    match kind {
        1 => items::walk(rt, bytes),
        2 => items::integer(rt, bytes),
        3 => days::real_day(rt, first),
        4 => days::real_moment(rt, first),
        5 => days::difference(rt, first, second),
        6 => items::member(rt, bytes, first, second),
        7 => certificates::judge(rt, bytes, first),
        8 => lists::judge(rt, bytes),
        9 => lists::listed(rt, bytes, first),
        10 => lists::age(rt, bytes, first),
        11 => images::open(rt, bytes),
        12 => images::open_for(rt, bytes, first),
        13 => images::entry(rt, bytes, first),
        14 => images::item(rt, bytes, first),
        15 => writing::write(rt, bytes, first, second, third),
        16 => writing::write_filled(rt, bytes, first, second, third),
        17 => chains::best(rt, bytes, first, second, third),
        18 => trays::replay(rt, bytes, first),
        19 => proposals::weigh(rt, bytes, first, second, third),
        20 => signers::all(rt, bytes, first, second, third),
        21 => versions::to_2(rt, bytes, first),
        22 => versions::to_1(rt, bytes, first),
        23 => versions::check(rt, bytes),
        24 => countries::of_letters(rt, bytes, first, second),
        25 => rooms::make(rt, bytes, first, second, third),
        _ => say::text(rt, b"no such question"),
    }
}
