// Vectors of the memory layer.
use crate::print::Words;
use memory::apply::Refused;
use memory::{apply, script, search, words};
use std::io;

const FULL: u64 = 0xffff_ffff_ffff_ffff;

const FLUSH: u64 = 0xffff_ffff_ffff_fffe;

const BYTES: u64 = 0x0807_0605_0403_0201;

pub fn bits(rt: &impl Print) -> io::Result<()> {
    println!(rt; "bit 0 of 1: {}", words::bit_of(1, 0))?;
    println!(rt; "bit 0 of 2^64-2: {}", words::bit_of(FULL - 1, 0))?;
    println!(rt;
        "bit 63 of 2^63: {}",
        words::bit_of(0x8000_0000_0000_0000, 63)
    )?;
    println!(rt;
        "bit 63 of 2^63-1: {}",
        words::bit_of(0x7fff_ffff_ffff_ffff, 63)
    )?;
    println!(rt; "0 with bit 0: {}", words::with_bit(0, 0))?;
    println!(rt; "0 with bit 63: {}", words::with_bit(0, 63))?;
    println!(rt; "2^64-1 with bit 63: {}", words::with_bit(FULL, 63))?;
    println!(rt; "2^64-1 without bit 0: {}", words::without_bit(FULL, 0))?;
    println!(rt; "2^64-1 without bit 63: {}", words::without_bit(FULL, 63))?;
    println!(rt; "0 without bit 63: {}", words::without_bit(0, 63))
}

pub fn bytes(rt: &impl Print) -> io::Result<()> {
    println!(rt;
        "byte 0 of 0x0807060504030201: {}",
        words::byte_of(BYTES, 0)
    )?;
    println!(rt;
        "byte 7 of 0x0807060504030201: {}",
        words::byte_of(BYTES, 7)
    )?;
    println!(rt;
        "0x0807060504030201 with 255 for byte 0: {}",
        words::with_byte(BYTES, 0, 255)
    )?;
    println!(rt;
        "0x0807060504030201 with 255 for byte 7: {}",
        words::with_byte(BYTES, 7, 255)
    )?;
    println!(rt;
        "2^64-1 with 0 for byte 3: {}",
        words::with_byte(FULL, 3, 0)
    )
}

pub fn searches(rt: &impl Print) -> io::Result<()> {
    println!(rt;
        "lowest clear bit of 0 below 64: {}",
        search::lowest_clear(0, 64)
    )?;
    println!(rt;
        "lowest clear bit of 7 below 16: {}",
        search::lowest_clear(7, 16)
    )?;
    println!(rt;
        "lowest clear bit of 7 below 3, none: {}",
        search::lowest_clear(7, 3)
    )?;
    println!(rt;
        "lowest clear bit of 2^63-1 below 64: {}",
        search::lowest_clear(0x7fff_ffff_ffff_ffff, 64)
    )?;
    println!(rt;
        "lowest clear bit of 2^64-1 below 64, none: {}",
        search::lowest_clear(FULL, 64)
    )?;
    println!(rt;
        "lowest clear bit of 2^64-1 below 16, none: {}",
        search::lowest_clear(FULL, 16)
    )
}

pub fn bitmap_searches(rt: &impl Print) -> io::Result<()> {
    let bitmap = [FULL, 5];
    println!(rt;
        "lowest clear bit of the bitmap 2^64-1, 5 below 128: {}",
        search::lowest_unmarked(&bitmap, 128)
    )?;
    println!(rt;
        "lowest clear bit of the bitmap 2^64-1, 5 below 65, none: {}",
        search::lowest_unmarked(&bitmap, 65)
    )?;
    println!(rt;
        "lowest clear bit of the bitmap 2^64-1, 5 below 0, none: {}",
        search::lowest_unmarked(&bitmap, 0)
    )?;
    let full = [FULL, FULL];
    println!(rt;
        "lowest clear bit of the bitmap 2^64-1, 2^64-1 below 100, none: {}",
        search::lowest_unmarked(&full, 100)
    )
}

pub fn writers(rt: &impl Print) -> io::Result<()> {
    let mut pair = [7u64; 9];
    script::put_fenced_pair(&mut pair, 100, 1, 200, 2);
    println!(rt;
        "nine words 7 with two stores written, each with its barrier:{}",
        Words(&pair)
    )?;
    let mut store = [7u64; 4];
    script::put_store(&mut store, 0, FULL);
    println!(rt; "four words 7 with a store written:{}", Words(&store))?;
    let mut barrier = [7u64; 3];
    script::put_barrier(&mut barrier);
    println!(rt; "three words 7 with a barrier written:{}", Words(&barrier))
}

// Carries a script out on an image of three words: the answer, and the image as it is left.
fn carry_out(rt: &impl Print, label: &str, script: &[u64]) -> io::Result<()> {
    let mut image = [10, 20, 30];
    let answer = match apply::apply(&mut image, script) {
        Ok(()) => "done",
        Err(Refused) => "refused",
    };
    println!(rt;
        "carry out on 10 20 30, {label}: {answer}, image{}",
        Words(&image)
    )
}

pub fn carried_out(rt: &impl Print) -> io::Result<()> {
    carry_out(rt, "no entry", &[])?;
    carry_out(rt, "a store to the first word", &[0, 11])?;
    carry_out(rt, "a barrier", &[FULL, 0])?;
    carry_out(
        rt,
        "two stores to a word, a barrier between",
        &[1, 21, FULL, 0, 1, 22],
    )?;
    carry_out(rt, "a store to the last word", &[2, FULL])
}

pub fn flushes(rt: &impl Print) -> io::Result<()> {
    carry_out(
        rt,
        "a store, a flush of its line, a barrier",
        &[0, 11, FLUSH, 0, FULL, 0],
    )?;
    carry_out(rt, "a flush of line 1, a store", &[FLUSH, 1, 1, 21])?;
    carry_out(rt, "a flush of line 2^64-1, a store", &[FLUSH, FULL, 2, 31])?;
    println!(rt;
        "stores counted of a flush, a store, a barrier, a store to word 0, a flush, a barrier: {}",
        script::count_stores(&[FLUSH, 5, 5, 50, FULL, 0, 0, 0, FLUSH, 0, FULL, 0])
    )
}

pub fn refusals(rt: &impl Print) -> io::Result<()> {
    carry_out(rt, "a store and half an entry", &[0, 11, 1])?;
    carry_out(rt, "a store and one at index 3", &[0, 11, 3, 12])?;
    carry_out(
        rt,
        "a store and one at index 2^64-3",
        &[0, 11, FLUSH - 1, 0],
    )?;
    carry_out(rt, "a store and half a flush", &[0, 11, FLUSH])?;
    carry_out(
        rt,
        "a store and a barrier with second word 1",
        &[0, 11, FULL, 1],
    )
}
