//! The mnemonics of the instructions that this machine leaves out (JVMS 6.5).

fn of_long(opcode: u8) -> Option<&'static str> {
    match opcode {
        0x09 => Some("lconst_0"),
        0x0a => Some("lconst_1"),
        0x14 => Some("ldc2_w"),
        0x16 => Some("lload"),
        0x1e => Some("lload_0"),
        0x1f => Some("lload_1"),
        0x20 => Some("lload_2"),
        0x21 => Some("lload_3"),
        0x2f => Some("laload"),
        0x37 => Some("lstore"),
        0x3f => Some("lstore_0"),
        0x40 => Some("lstore_1"),
        0x41 => Some("lstore_2"),
        0x42 => Some("lstore_3"),
        0x50 => Some("lastore"),
        0x61 => Some("ladd"),
        0x65 => Some("lsub"),
        0x69 => Some("lmul"),
        0x6d => Some("ldiv"),
        0x71 => Some("lrem"),
        0x75 => Some("lneg"),
        0x79 => Some("lshl"),
        0x7b => Some("lshr"),
        0x7d => Some("lushr"),
        0x7f => Some("land"),
        0x81 => Some("lor"),
        0x83 => Some("lxor"),
        0x94 => Some("lcmp"),
        0xad => Some("lreturn"),
        _ => None,
    }
}

fn of_float(opcode: u8) -> Option<&'static str> {
    match opcode {
        0x0b => Some("fconst_0"),
        0x0c => Some("fconst_1"),
        0x0d => Some("fconst_2"),
        0x17 => Some("fload"),
        0x22 => Some("fload_0"),
        0x23 => Some("fload_1"),
        0x24 => Some("fload_2"),
        0x25 => Some("fload_3"),
        0x30 => Some("faload"),
        0x38 => Some("fstore"),
        0x43 => Some("fstore_0"),
        0x44 => Some("fstore_1"),
        0x45 => Some("fstore_2"),
        0x46 => Some("fstore_3"),
        0x51 => Some("fastore"),
        0x62 => Some("fadd"),
        0x66 => Some("fsub"),
        0x6a => Some("fmul"),
        0x6e => Some("fdiv"),
        0x72 => Some("frem"),
        0x76 => Some("fneg"),
        0x95 => Some("fcmpl"),
        0x96 => Some("fcmpg"),
        0xae => Some("freturn"),
        _ => None,
    }
}

fn of_double(opcode: u8) -> Option<&'static str> {
    match opcode {
        0x0e => Some("dconst_0"),
        0x0f => Some("dconst_1"),
        0x18 => Some("dload"),
        0x26 => Some("dload_0"),
        0x27 => Some("dload_1"),
        0x28 => Some("dload_2"),
        0x29 => Some("dload_3"),
        0x31 => Some("daload"),
        0x39 => Some("dstore"),
        0x47 => Some("dstore_0"),
        0x48 => Some("dstore_1"),
        0x49 => Some("dstore_2"),
        0x4a => Some("dstore_3"),
        0x52 => Some("dastore"),
        0x63 => Some("dadd"),
        0x67 => Some("dsub"),
        0x6b => Some("dmul"),
        0x6f => Some("ddiv"),
        0x73 => Some("drem"),
        0x77 => Some("dneg"),
        0x97 => Some("dcmpl"),
        0x98 => Some("dcmpg"),
        0xaf => Some("dreturn"),
        _ => None,
    }
}

fn of_conversion(opcode: u8) -> Option<&'static str> {
    match opcode {
        0x85 => Some("i2l"),
        0x86 => Some("i2f"),
        0x87 => Some("i2d"),
        0x88 => Some("l2i"),
        0x89 => Some("l2f"),
        0x8a => Some("l2d"),
        0x8b => Some("f2i"),
        0x8c => Some("f2l"),
        0x8d => Some("f2d"),
        0x8e => Some("d2i"),
        0x8f => Some("d2l"),
        0x90 => Some("d2f"),
        _ => None,
    }
}

fn of_others(opcode: u8) -> Option<&'static str> {
    match opcode {
        0xa8 => Some("jsr"),
        0xa9 => Some("ret"),
        0xba => Some("invokedynamic"),
        0xc5 => Some("multianewarray"),
        0xc9 => Some("jsr_w"),
        0xca => Some("breakpoint"),
        0xfe => Some("impdep1"),
        0xff => Some("impdep2"),
        _ => None,
    }
}

/// The mnemonic of an opcode of the JVMS, whether this machine has it or not (6.5).
pub fn mnemonic(opcode: u8) -> Option<&'static str> {
    opcodes::mnemonic(opcode)
        .or(of_long(opcode))
        .or(of_float(opcode))
        .or(of_double(opcode))
        .or(of_conversion(opcode))
        .or(of_others(opcode))
}
