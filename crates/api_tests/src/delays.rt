//! Tests of the greatest worst-case delay. Only a program file reaches it: the formulas of a
//! specification would be too heavy.

use obs_binary::{FileFault, ProgramFault, open};
use r2u2_monitor::delay_of;
use std::alloc::{AllocError, Global};
use std::test::Fail;

/// Appends numbers of four bytes, as a program file has them.
fn add_numbers(bytes: &mut Vec<u8>, numbers: &[u32]) -> Result<(), AllocError> {
    for number in numbers {
        bytes.extend_from_slice(&number.to_le_bytes())?;
    }
    Ok(())
}

/// Makes the file of a program: one signal, and `count` untils, each over the one before on both
/// sides. All have the interval [1048576,1048576].
fn untils(alloc: Global, count: u8) -> Result<Vec<u8>, AllocError> {
    let count = u32::from(count);
    let mut bytes = Vec::new(alloc);
    bytes.extend_from_slice(b"MLTL")?;
    add_numbers(&mut bytes, &[1, 1, 1, count + 1, 0, 1, 1])?;
    add_numbers(&mut bytes, &[0x02, 0, 0, 0, 0, 0])?;
    add_numbers(&mut bytes, &[0x11, 0, 0, 0, 0, 1])?;
    for k in 0..count {
        add_numbers(&mut bytes, &[0x14, k, k, 1_048_576, 1_048_576, 1])?;
    }
    add_numbers(&mut bytes, &[0x30, count, 0, 1, 0, 0])?;
    bytes.push(b'f')?;
    Ok(bytes)
}

/// Returns the worst-case delay of the last of `count` untils.
fn delay_over(alloc: Global, count: u8) -> Result<Option<u32>, FileFault> {
    let bytes = match untils(alloc, count) {
        Ok(bytes) => bytes,
        Err(_) => return Err(FileFault::Memory),
    };
    let checked = open(alloc, &bytes)?;
    Ok(delay_of(&checked, 0))
}

#[test]
fn are_16777216_rows_at_most(rt: HostRuntime) {
    let sixteen = matches!(delay_over(rt.alloc(), 16), Ok(Some(16_777_216)));
    assert!(rt; sixteen);
    let seventeen = delay_over(rt.alloc(), 17);
    assert!(rt;
        matches!(
            seventeen,
            Err(FileFault::Program(ProgramFault::TooLate(17)))
        )
    );
}
