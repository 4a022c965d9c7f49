// The edges of every range, and what a refusal says.
use settings::refusal::SettingRefusal;
use settings::settings::{RawPath, Settings};
use std::test::Fail;

// The number of the refusal that a call answered, 0 for none.
fn number_of(answer: Result<(), SettingRefusal>) -> u8 {
    match answer {
        Ok(()) => 0,
        Err(refusal) => refusal.number(),
    }
}

#[test]
fn numbers_at_the_limits(rt: HostRuntime) {
    let mut s = Settings::fresh();
    for (factor, number) in [(0, 1), (1, 0), (32767, 0), (32768, 1)] {
        assert_eq!(rt; number_of(s.set_scale(factor)), number);
    }
    for (shift, factor, number) in [
        (-33, 128, 2),
        (-32, 128, 0),
        (18, 255, 0),
        (19, 255, 2),
        (0, 127, 2),
        (0, 256, 2),
    ] {
        assert_eq!(rt; number_of(s.set_gain(shift, factor)), number);
    }
    for (c, number) in [
        (-9_007_199_254_741, 5),
        (-9_007_199_254_740, 0),
        (9_007_199_254_740, 0),
        (9_007_199_254_741, 5),
    ] {
        assert_eq!(rt; number_of(s.set_clock(c)), number);
    }
    for (f, number) in [
        (-140_737_488_355_329, 7),
        (-140_737_488_355_328, 0),
        (140_737_488_355_327, 0),
        (140_737_488_355_328, 7),
    ] {
        assert_eq!(rt; number_of(s.set_frequency(f)), number);
    }
    for (re, im, number) in [(0, 1, 6), (1, 0, 6), (1, 1, 0)] {
        assert_eq!(rt; number_of(s.set_seeds(re, im)), number);
    }
    for (index, factor, number) in [(127, 128, 0), (127, 127, 2), (128, 128, 13), (128, 127, 13)] {
        assert_eq!(rt; number_of(s.set_receive_gain(index, 0, factor)), number);
    }
}

#[test]
fn paths_at_the_limits(rt: HostRuntime) {
    let near = RawPath {
        re: 1,
        im: 2,
        delay: 63,
    };
    let far = RawPath {
        re: 1,
        im: 2,
        delay: 64,
    };
    let mut s = Settings::fresh();
    assert_eq!(rt;
        s.set_paths(&[]),
        Err(SettingRefusal::PathOutside { path: 10 })
    );
    assert_eq!(rt;
        s.set_paths(&[far; 11]),
        Err(SettingRefusal::PathOutside { path: 10 })
    );
    assert_eq!(rt;
        s.set_paths(&[near, far, far]),
        Err(SettingRefusal::PathOutside { path: 1 })
    );
    assert_eq!(rt; s.paths.count, 1);
    assert_eq!(rt; s.set_paths(&[near; 10]), Ok(()));
    assert_eq!(rt; s.paths.in_use().len(), 10);
}

#[test]
fn table_at_the_limits(rt: HostRuntime) {
    let mut s = Settings::fresh();
    let mut amplitudes = [0u16; 513];
    let phases = [-5i16; 513];
    assert_eq!(rt;
        s.set_amplifier_table(&amplitudes[0..512], &phases),
        Err(SettingRefusal::EntryOutside { entry: 513 })
    );
    assert_eq!(rt;
        s.set_amplifier_table(&amplitudes, &phases[0..512]),
        Err(SettingRefusal::EntryOutside { entry: 513 })
    );
    amplitudes[512] = 32768;
    assert_eq!(rt;
        s.set_amplifier_table(&amplitudes, &phases),
        Err(SettingRefusal::EntryOutside { entry: 512 })
    );
    amplitudes[512] = 32767;
    assert_eq!(rt; s.set_amplifier_table(&amplitudes, &phases), Ok(()));
    let phase = s.amplifier.entries[512].phase;
    assert_eq!(rt; phase, -5);
}

#[test]
fn refusals_in_words(rt: HostRuntime) -> Result<(), Fail> {
    let count = SettingRefusal::PathOutside { path: 10 };
    let delay = SettingRefusal::PathOutside { path: 3 };
    assert_eq!(rt;
        format!(in rt.alloc(); "{count}")?.as_str(),
        "there must be 1 to 10 paths"
    );
    assert_eq!(rt;
        format!(in rt.alloc(); "{delay}")?.as_str(),
        "the delay of path 3 must be 0 to 63"
    );
    Ok(())
}
