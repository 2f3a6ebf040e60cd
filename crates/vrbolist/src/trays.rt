// Tray logs.
ghost use Rattle.std.specs.Prelude.{◌≡◌, length};
ghost use Rattle.tray.specs.Answer.{replay_of, list_of};
ghost use Rattle.vrbolist.specs.Told.{replay_told};

#[repr(C)]
#[derive(Clone, Copy)]
pub struct ReplayAnswer {
    pub number: u64,
    pub detail: u64,
    pub faulty: u64,
}

#[unsafe(no_mangle)]
pub extern "C" fn vrbolist_replay(log: &[u8], list: &mut [u64]) -> ReplayAnswer
    ensures answer { result ≡ replay_told (replay_of log.now (length list.old)) }
    ensures output { list.new ≡ list_of log.now list.old }
{
    match tray::replay(log, list) {
        Ok(faulty) => ReplayAnswer {
            number: 0,
            detail: 0,
            faulty: faulty as u64,
        },
        Err(refusal) => ReplayAnswer {
            number: refusal::number(refusal),
            detail: refusal::detail(refusal),
            faulty: 0,
        },
    }
}
