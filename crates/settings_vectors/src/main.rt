// Prints what `settings`, `setting_places` and `setting_values` answer: document 01's cases, and digests over all
// settings and fuses. The file stdout beside src/ is what the independent program prints.
#![tactic(auto)]

use part::{Device, Refusal};
use setting_places::FuseAt;
use settings::{BlockField, GlobalField, MacrocellField, Polarity, Setting, SettingNumber};
use std::io;
use std::io::{BufWriter, Write};
use values::{
    ClkMux, ExportDir, FclkMux, FoeMux, ImportAlloc, IobOeMux, IobSlew, OeMux, OutMux, RegMode,
    RstSetMux, TermAlloc, UimOeMux, Value,
};
use vectors::SMALLEST;

// The word of an answer that has no result: no such bit, no setting at the fuse.
const NONE: u64 = 72057594037927935;

// The words of the answers, packed as the C interface does, and not by its crate, which is what is compared.
fn refusal_word(r: Refusal) -> u64 {
    (r.number() as u64) << 56 | r.value() as u64
}

fn number_word(answer: Result<u32, Refusal>) -> u64 {
    match answer {
        Ok(x) => x as u64,
        Err(r) => refusal_word(r),
    }
}

fn setting_number_word(answer: Result<SettingNumber, Refusal>) -> u64 {
    match answer {
        Ok(number) => number.0 as u64,
        Err(r) => refusal_word(r),
    }
}

fn bit_word(answer: Result<Option<FuseAt>, Refusal>) -> u64 {
    match answer {
        Ok(Some(x)) => (x.fuse.0 as u64) << 20 | (x.at.address.0 as u64) << 3 | x.at.bit as u64,
        Ok(None) => NONE,
        Err(r) => refusal_word(r),
    }
}

fn value_word(answer: Result<Value, Refusal>) -> u64 {
    match answer {
        Ok(v) => number_of_value(v),
        Err(r) => refusal_word(r),
    }
}

// A value as a number: 1000 and a flag, 2000 and the place of its printed name in a list of all, 3000 and USERCODE's
// number, 2^33 and a pattern without a name. The list: NONE SUM EXPORT SPECIAL UP DOWN GND OE_MUX VCC COMB FF PT FOE0
// FOE1 FOE2 FOE3 FCLK0 FCLK1 FCLK2 DFF TFF FSR SLOW FAST GCLK[0] GCLK[1] GCLK[2] GOE[0] GOE[1] GOE[2] GOE[3].
fn number_of_value(v: Value) -> u64 {
    match v {
        Value::Flag(x) => 1000 + x as u64,
        Value::TermAlloc(TermAlloc::None)
        | Value::FclkMux(FclkMux::None)
        | Value::FoeMux(FoeMux::None) => 2000,
        Value::TermAlloc(TermAlloc::Sum) | Value::ImportAlloc(ImportAlloc::Sum) => 2001,
        Value::TermAlloc(TermAlloc::Export) | Value::ImportAlloc(ImportAlloc::Export) => 2002,
        Value::TermAlloc(TermAlloc::Special) => 2003,
        Value::ExportDir(ExportDir::Up) => 2004,
        Value::ExportDir(ExportDir::Down) => 2005,
        Value::IobOeMux(IobOeMux::Gnd) | Value::UimOeMux(UimOeMux::Gnd) => 2006,
        Value::IobOeMux(IobOeMux::OeMux) | Value::UimOeMux(UimOeMux::OeMux) => 2007,
        Value::IobOeMux(IobOeMux::Vcc) | Value::UimOeMux(UimOeMux::Vcc) => 2008,
        Value::OutMux(OutMux::Comb) => 2009,
        Value::OutMux(OutMux::Ff) => 2010,
        Value::OeMux(OeMux::Pt) | Value::ClkMux(ClkMux::Pt) | Value::RstSetMux(RstSetMux::Pt) => {
            2011
        }
        Value::OeMux(OeMux::Foe0) => 2012,
        Value::OeMux(OeMux::Foe1) => 2013,
        Value::OeMux(OeMux::Foe2) => 2014,
        Value::OeMux(OeMux::Foe3) => 2015,
        Value::ClkMux(ClkMux::Fclk0) => 2016,
        Value::ClkMux(ClkMux::Fclk1) => 2017,
        Value::ClkMux(ClkMux::Fclk2) => 2018,
        Value::RegMode(RegMode::Dff) => 2019,
        Value::RegMode(RegMode::Tff) => 2020,
        Value::RstSetMux(RstSetMux::Fsr) => 2021,
        Value::IobSlew(IobSlew::Slow) => 2022,
        Value::IobSlew(IobSlew::Fast) => 2023,
        Value::FclkMux(FclkMux::Gclk0) => 2024,
        Value::FclkMux(FclkMux::Gclk1) => 2025,
        Value::FclkMux(FclkMux::Gclk2) => 2026,
        Value::FoeMux(FoeMux::Goe0) => 2027,
        Value::FoeMux(FoeMux::Goe1) => 2028,
        Value::FoeMux(FoeMux::Goe2) => 2029,
        Value::FoeMux(FoeMux::Goe3) => 2030,
        Value::Usercode(x) => 3000 + x as u64,
        Value::Unassigned(x) => 8589934592 + x as u64,
    }
}

// The place of a field in the list of all of its group: not asked of the library, whose order is what is compared.
fn macrocell_field(field: MacrocellField) -> u64 {
    match field {
        MacrocellField::Alloc(k) => k as u64,
        MacrocellField::Inv => 5,
        MacrocellField::ImportUpAlloc => 6,
        MacrocellField::ImportDownAlloc => 7,
        MacrocellField::ExportDir => 8,
        MacrocellField::SumHp => 9,
        MacrocellField::IobOeMux => 10,
        MacrocellField::OeMux => 11,
        MacrocellField::OutMux => 12,
        MacrocellField::ClkMux => 13,
        MacrocellField::RegMode => 14,
        MacrocellField::RstMux => 15,
        MacrocellField::SetMux => 16,
        MacrocellField::Init => 17,
        MacrocellField::UimOeMux => 18,
        MacrocellField::UimOutInv => 19,
        MacrocellField::IobGnd => 20,
        MacrocellField::IobSlew => 21,
        MacrocellField::Hp(k) => 22 + k as u64,
    }
}

fn block_field(field: BlockField) -> u64 {
    match field {
        BlockField::Enable => 0,
        BlockField::ExportEnable => 1,
        BlockField::PullupDisable => 2,
        BlockField::ReadProtA => 3,
        BlockField::ReadProtB => 4,
        BlockField::WriteProt => 5,
    }
}

// The list is that of the large class.
fn global_field(field: GlobalField) -> u64 {
    match field {
        GlobalField::FsrInv => 0,
        GlobalField::FclkInv(c) => 1 + c as u64,
        GlobalField::FoeInv(e) => 4 + e as u64,
        GlobalField::FclkMux(c) => 8 + c as u64,
        GlobalField::FoeMux(e) => 11 + e as u64,
        GlobalField::Usercode => 15,
    }
}

fn polarity_number(polarity: Polarity) -> u64 {
    match polarity {
        Polarity::P => 0,
        Polarity::N => 1,
    }
}

// A setting as six numbers: group, block, macrocell, term or source block, input, and polarity
// or field; 0 where it has none.
fn described(
    digest: u64,
    group: u64,
    block: u32,
    macrocell: u32,
    third: u32,
    input: u32,
    field: u64,
) -> u64 {
    let at_block = vectors::taken_in(vectors::taken_in(digest, group), block as u64);
    let at_macrocell = vectors::taken_in(at_block, macrocell as u64);
    let at_third = vectors::taken_in(at_macrocell, third as u64);
    let at_input = vectors::taken_in(at_third, input as u64);
    vectors::taken_in(at_input, field)
}

fn description(digest: u64, s: Setting) -> u64 {
    match s {
        Setting::Literal {
            block,
            macrocell,
            term,
            input,
            polarity,
        } => described(
            digest,
            0,
            block,
            macrocell,
            term,
            input,
            polarity_number(polarity),
        ),
        Setting::WireAnd {
            block,
            input,
            source,
            macrocell,
        } => described(digest, 1, block, macrocell, source, input, 0),
        Setting::Macrocell {
            block,
            macrocell,
            field,
        } => described(digest, 2, block, macrocell, 0, 0, macrocell_field(field)),
        Setting::Block { block, field } => {
            described(digest, 3, block, 0, 0, 0, block_field(field))
        }
        Setting::Global(field) => described(digest, 4, 0, 0, 0, 0, global_field(field)),
    }
}

// From here on a function takes a digest and gives it with its answers taken in.
fn number_of(digest: u64, d: Device, s: Setting) -> u64 {
    vectors::taken_in(
        digest,
        setting_number_word(settings::number_of_setting(d, s)),
    )
}

fn width_of(digest: u64, d: Device, s: Setting) -> u64 {
    vectors::taken_in(digest, number_word(setting_places::bits_of_setting(d, s)))
}

fn fuse_of(digest: u64, d: Device, s: Setting, bit: u32) -> u64 {
    vectors::taken_in(digest, bit_word(setting_places::fuse_of_bit(d, s, bit)))
}

// The fuse of each bit, and of the bit after the last.
fn fuses_of(digest: u64, d: Device, s: Setting, width: u32) -> u64 {
    let all = (0..width).fold(digest, |digest, bit| fuse_of(digest, d, s, bit));
    fuse_of(all, d, s, width)
}

// The patterns to try: of few bits every one and the first that does not fit; of USERCODE five.
fn patterns(width: u32) -> &'static [u32] {
    match width {
        1 => &[0, 1, 2],
        2 => &[0, 1, 2, 3, 4],
        3 => &[0, 1, 2, 3, 4, 5, 6, 7, 8],
        _ => &[0, 1, 0x80000000, 0xFFFFFFFF, 0x12345678],
    }
}

fn pattern_of(digest: u64, d: Device, s: Setting, v: Value) -> u64 {
    vectors::taken_in(
        digest,
        number_word(setting_values::pattern_of_value(d, s, v)),
    )
}

// The value of a pattern, and the pattern of that value.
fn value_of(digest: u64, d: Device, s: Setting, pattern: u32) -> u64 {
    match setting_values::value_of_pattern(d, s, pattern) {
        Ok(v) => pattern_of(vectors::taken_in(digest, number_of_value(v)), d, s, v),
        Err(r) => vectors::taken_in(digest, refusal_word(r)),
    }
}

fn values_of(digest: u64, d: Device, s: Setting, width: u32) -> u64 {
    patterns(width)
        .iter()
        .fold(digest, |digest, pattern| value_of(digest, d, s, *pattern))
}

// All that is known of a setting: what it is, its fuses, its values.
fn of_setting(digest: u64, d: Device, s: Setting) -> u64 {
    let described = description(number_of(digest, d, s), s);
    let width = setting_places::bits_of_setting(d, s).unwrap_or(0);
    let with_fuses = fuses_of(width_of(described, d, s), d, s, width);
    values_of(with_fuses, d, s, width)
}

fn of_number(digest: u64, d: Device, number: u32) -> u64 {
    match settings::setting_of_number(d, SettingNumber(number)) {
        Ok(s) => of_setting(digest, d, s),
        Err(r) => vectors::taken_in(digest, refusal_word(r)),
    }
}

fn at_fuse(d: Device, fuse: u32) -> u64 {
    xc9500::xc9500_setting_at_fuse(d.blocks, d.class, fuse)
}

// All settings, and the number after the last.
fn settings_digest(d: Device, count: u32) -> u64 {
    let all = (0..count).fold(0, |digest, number| of_number(digest, d, number));
    of_number(all, d, count)
}

// All fuses, and the number after the last.
fn fuses_digest(d: Device, count: u32) -> u64 {
    let all = (0..count).fold(
        0,
        |digest, fuse| vectors::taken_in(digest, at_fuse(d, fuse)),
    );
    vectors::taken_in(all, at_fuse(d, count))
}

fn setting_count(d: Device) -> u32 {
    settings::setting_count(d).unwrap_or(0)
}

fn fuse_count(d: Device) -> u32 {
    part::sizes_of(d).map_or(0, |sizes| sizes.fuses)
}

// How many fuses are unnamed.
fn unnamed(d: Device, count: u32) -> u32 {
    (0..count).filter(|fuse| at_fuse(d, *fuse) == NONE).count() as u32
}

// The part whose settings have every field and every value, with two blocks: the fields of its last macrocell, of its
// two blocks and of the whole part are its settings from this number up to that.
const SAMPLE: Device = Device {
    blocks: 2,
    class: 1,
};

const FIRST_OF_SAMPLE: u32 = 16552 - 27 - 2 * 6 - 16;

const END_OF_SAMPLE: u32 = 16552;

// A value offered to a setting of the sample.
fn offer(digest: u64, d: Device, number: u32, v: Value) -> u64 {
    match settings::setting_of_number(SAMPLE, SettingNumber(number)) {
        Ok(s) => pattern_of(digest, d, s, v),
        Err(_) => digest,
    }
}

// A value offered to each setting of the sample.
fn offers(digest: u64, d: Device, v: Value) -> u64 {
    (FIRST_OF_SAMPLE..END_OF_SAMPLE).fold(digest, |digest, number| offer(digest, d, number, v))
}

fn offers_of_pattern(digest: u64, d: Device, s: Setting, pattern: u32) -> u64 {
    match setting_values::value_of_pattern(SAMPLE, s, pattern) {
        Ok(v) => offers(digest, d, v),
        Err(_) => digest,
    }
}

fn offers_of_number(digest: u64, d: Device, number: u32) -> u64 {
    match settings::setting_of_number(SAMPLE, SettingNumber(number)) {
        Ok(s) => patterns(setting_places::bits_of_setting(SAMPLE, s).unwrap_or(0))
            .iter()
            .fold(
                digest,
                |digest, pattern| offers_of_pattern(digest, d, s, *pattern),
            ),
        Err(_) => digest,
    }
}

// The digest of the answers for each value offered to each setting of the sample.
fn values_offered(d: Device) -> u64 {
    (FIRST_OF_SAMPLE..END_OF_SAMPLE).fold(0, |digest, number| offers_of_number(digest, d, number))
}

// The same digest with patterns offered as "unassigned" taken in.
fn offers_digest(d: Device) -> u64 {
    let all = (0..9).fold(values_offered(d), |digest, pattern| {
        offers(digest, d, Value::Unassigned(pattern))
    });
    offers(all, d, Value::Unassigned(0xFFFFFFFF))
}

// A setting that no device has, asked for number, width, fuse, value and pattern.
fn absent(digest: u64, d: Device, s: Setting) -> u64 {
    let with_width = width_of(number_of(digest, d, s), d, s);
    let with_value = value_of(fuse_of(with_width, d, s, 0), d, s, 0);
    pattern_of(with_value, d, s, Value::Flag(true))
}

// Settings that have one index of these and else 0.
#[derive(Clone, Copy)]
struct Past {
    block: u32,
    macrocell: u32,
    term: u32,
    input: u32,
    clock: u32,
    enable: u32,
}

fn literal(block: u32, macrocell: u32, term: u32, input: u32) -> Setting {
    Setting::Literal {
        block,
        macrocell,
        term,
        input,
        polarity: Polarity::P,
    }
}

fn wire_and(block: u32, input: u32, source: u32, macrocell: u32) -> Setting {
    Setting::WireAnd {
        block,
        input,
        source,
        macrocell,
    }
}

fn macrocell_field_of(block: u32, macrocell: u32, field: MacrocellField) -> Setting {
    Setting::Macrocell {
        block,
        macrocell,
        field,
    }
}

fn settings_past(past: Past) -> [Setting; 17] {
    [
        literal(past.block, 0, 0, 0),
        literal(0, past.macrocell, 0, 0),
        literal(0, 0, past.term, 0),
        literal(0, 0, 0, past.input),
        wire_and(past.block, 0, 0, 0),
        wire_and(0, past.input, 0, 0),
        wire_and(0, 0, past.block, 0),
        wire_and(0, 0, 0, past.macrocell),
        macrocell_field_of(past.block, 0, MacrocellField::Inv),
        macrocell_field_of(0, past.macrocell, MacrocellField::Inv),
        macrocell_field_of(0, 0, MacrocellField::Alloc(past.term)),
        macrocell_field_of(0, 0, MacrocellField::Hp(past.term)),
        Setting::Block {
            block: past.block,
            field: BlockField::Enable,
        },
        Setting::Global(GlobalField::FclkInv(past.clock)),
        Setting::Global(GlobalField::FoeInv(past.enable)),
        Setting::Global(GlobalField::FclkMux(past.clock)),
        Setting::Global(GlobalField::FoeMux(past.enable)),
    ]
}

fn absent_settings(digest: u64, d: Device, past: Past) -> u64 {
    settings_past(past)
        .iter()
        .fold(digest, |digest, s| absent(digest, d, *s))
}

fn foe_count(d: Device) -> u32 {
    if d.class == 0 {
        return 2;
    }
    4
}

// One past each index, and far past it.
fn past_digest(d: Device) -> u64 {
    let just = Past {
        block: d.blocks,
        macrocell: 18,
        term: 5,
        input: 36,
        clock: 3,
        enable: foe_count(d),
    };
    let far = Past {
        block: 0xFFFFFFFF,
        macrocell: 0xFFFFFFFF,
        term: 0xFFFFFFFF,
        input: 0xFFFFFFFF,
        clock: 0xFFFFFFFF,
        enable: 0xFFFFFFFF,
    };
    absent_settings(absent_settings(0, d, just), d, far)
}

// A fuse with its address and bit, from their word. The word of a refusal would show as a number that is no fuse.
fn put_located<W: Write>(out: &mut W, word: u64) -> io::Result<()> {
    vectors::put(out, b" fuse", word >> 20)?;
    vectors::put(out, b" address", word % (1 << 20) / 8)?;
    vectors::put(out, b" bit", word % 8)
}

// Number and fuse, with its address and bit, of a bit of a setting of document 01's cases, and the way back from the
// fuse that it gives.
fn document_case<W: Write>(
    out: &mut W,
    name: &[u8],
    s: Setting,
    bit: u32,
    fuse: u32,
) -> io::Result<()> {
    vectors::put(out, name, bit as u64)?;
    vectors::put(
        out,
        b" number",
        setting_number_word(settings::number_of_setting(SMALLEST, s)),
    )?;
    put_located(out, bit_word(setting_places::fuse_of_bit(SMALLEST, s, bit)))?;
    vectors::put(out, b" back", at_fuse(SMALLEST, fuse))?;
    vectors::end_line(out)
}

fn literal_of_case(polarity: Polarity) -> Setting {
    Setting::Literal {
        block: 0,
        macrocell: 4,
        term: 2,
        input: 7,
        polarity,
    }
}

fn fuse_cases<W: Write>(out: &mut W) -> io::Result<()> {
    document_case(out, b"literal P bit", literal_of_case(Polarity::P), 0, 1677)?;
    document_case(out, b"literal N bit", literal_of_case(Polarity::N), 0, 1569)?;
    document_case(out, b"wire-AND bit", wire_and(0, 7, 1, 3), 0, 8548)?;
    let inv = macrocell_field_of(0, 10, MacrocellField::Inv);
    document_case(out, b"INV bit", inv, 0, 2391)?;
    let usercode = Setting::Global(GlobalField::Usercode);
    document_case(out, b"USERCODE bit", usercode, 0, 818)?;
    document_case(out, b"USERCODE bit", usercode, 31, 655)
}

// OE_MUX of macrocell 0: its three fuses, the value of all ones, the pattern of FOE2.
fn oe_mux_cases<W: Write>(out: &mut W) -> io::Result<()> {
    let s = macrocell_field_of(0, 0, MacrocellField::OeMux);
    document_case(out, b"OE_MUX bit", s, 0, 3138)?;
    document_case(out, b"OE_MUX bit", s, 1, 3246)?;
    document_case(out, b"OE_MUX bit", s, 2, 3354)?;
    let value = value_word(setting_values::value_of_pattern(SMALLEST, s, 7));
    vectors::put(out, b"OE_MUX pattern 7 value", value)?;
    vectors::end_line(out)?;
    let foe2 = setting_values::pattern_of_value(SMALLEST, s, Value::OeMux(OeMux::Foe2));
    vectors::put(out, b"OE_MUX FOE2 pattern", number_word(foe2))?;
    vectors::end_line(out)
}

fn count<W: Write>(out: &mut W, d: Device) -> io::Result<()> {
    vectors::put_device(out, d)?;
    vectors::put_answer(out, number_word(settings::setting_count(d)))
}

fn digests<W: Write>(out: &mut W, d: Device) -> io::Result<()> {
    vectors::put(out, b" settings", settings_digest(d, setting_count(d)))?;
    vectors::put(out, b" fuses", fuses_digest(d, fuse_count(d)))?;
    vectors::put(out, b" unnamed", unnamed(d, fuse_count(d)) as u64)?;
    vectors::put(out, b" offers", offers_digest(d))?;
    vectors::put(out, b" past", past_digest(d))
}

fn device<W: Write>(out: &mut W, d: Device) -> io::Result<()> {
    count(out, d)?;
    digests(out, d)?;
    vectors::end_line(out)
}

fn main(rt: HostRuntime) -> io::Result<()> {
    let mut out = BufWriter::new(rt.alloc(), io::writer(&rt))?;
    fuse_cases(&mut out)?;
    oe_mux_cases(&mut out)?;
    for d in (0..vectors::DEVICES).map(vectors::device) {
        device(&mut out, d)?;
    }
    out.flush()
}
