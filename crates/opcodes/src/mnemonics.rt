//! The mnemonics of opcodes, by the groups of JVMS 7.

ghost use Rattle.std.specs.Prelude.{◌≡◌, option_copied};
ghost use Rattle.model.specs.OpcodeTable.{mnemonic_in, constants_and_loads, stores_and_stack, math_and_conversions, comparisons, control, references, extended, low_mnemonic, high_mnemonic, mnemonic_of};

fn constants_and_loads(opcode: u8) -> Option<&'static str>
    ensures { option_copied result ≡ mnemonic_in constants_and_loads opcode }
{
    match opcode {
        0x00 => Some("nop"),
        0x01 => Some("aconst_null"),
        0x02 => Some("iconst_m1"),
        0x03 => Some("iconst_0"),
        0x04 => Some("iconst_1"),
        0x05 => Some("iconst_2"),
        0x06 => Some("iconst_3"),
        0x07 => Some("iconst_4"),
        0x08 => Some("iconst_5"),
        0x10 => Some("bipush"),
        0x11 => Some("sipush"),
        0x12 => Some("ldc"),
        0x13 => Some("ldc_w"),
        0x15 => Some("iload"),
        0x19 => Some("aload"),
        0x1a => Some("iload_0"),
        0x1b => Some("iload_1"),
        0x1c => Some("iload_2"),
        0x1d => Some("iload_3"),
        0x2a => Some("aload_0"),
        0x2b => Some("aload_1"),
        0x2c => Some("aload_2"),
        0x2d => Some("aload_3"),
        0x2e => Some("iaload"),
        0x32 => Some("aaload"),
        0x33 => Some("baload"),
        0x34 => Some("caload"),
        0x35 => Some("saload"),
        _ => None,
    }
}

fn stores_and_stack(opcode: u8) -> Option<&'static str>
    ensures { option_copied result ≡ mnemonic_in stores_and_stack opcode }
{
    match opcode {
        0x36 => Some("istore"),
        0x3a => Some("astore"),
        0x3b => Some("istore_0"),
        0x3c => Some("istore_1"),
        0x3d => Some("istore_2"),
        0x3e => Some("istore_3"),
        0x4b => Some("astore_0"),
        0x4c => Some("astore_1"),
        0x4d => Some("astore_2"),
        0x4e => Some("astore_3"),
        0x4f => Some("iastore"),
        0x53 => Some("aastore"),
        0x54 => Some("bastore"),
        0x55 => Some("castore"),
        0x56 => Some("sastore"),
        0x57 => Some("pop"),
        0x58 => Some("pop2"),
        0x59 => Some("dup"),
        0x5a => Some("dup_x1"),
        0x5b => Some("dup_x2"),
        0x5c => Some("dup2"),
        0x5d => Some("dup2_x1"),
        0x5e => Some("dup2_x2"),
        0x5f => Some("swap"),
        _ => None,
    }
}

fn math_and_conversions(opcode: u8) -> Option<&'static str>
    ensures { option_copied result ≡ mnemonic_in math_and_conversions opcode }
{
    match opcode {
        0x60 => Some("iadd"),
        0x64 => Some("isub"),
        0x68 => Some("imul"),
        0x6c => Some("idiv"),
        0x70 => Some("irem"),
        0x74 => Some("ineg"),
        0x78 => Some("ishl"),
        0x7a => Some("ishr"),
        0x7c => Some("iushr"),
        0x7e => Some("iand"),
        0x80 => Some("ior"),
        0x82 => Some("ixor"),
        0x84 => Some("iinc"),
        0x91 => Some("i2b"),
        0x92 => Some("i2c"),
        0x93 => Some("i2s"),
        _ => None,
    }
}

fn comparisons(opcode: u8) -> Option<&'static str>
    ensures { option_copied result ≡ mnemonic_in comparisons opcode }
{
    match opcode {
        0x99 => Some("ifeq"),
        0x9a => Some("ifne"),
        0x9b => Some("iflt"),
        0x9c => Some("ifge"),
        0x9d => Some("ifgt"),
        0x9e => Some("ifle"),
        0x9f => Some("if_icmpeq"),
        0xa0 => Some("if_icmpne"),
        0xa1 => Some("if_icmplt"),
        0xa2 => Some("if_icmpge"),
        0xa3 => Some("if_icmpgt"),
        0xa4 => Some("if_icmple"),
        0xa5 => Some("if_acmpeq"),
        0xa6 => Some("if_acmpne"),
        _ => None,
    }
}

fn control(opcode: u8) -> Option<&'static str>
    ensures { option_copied result ≡ mnemonic_in control opcode }
{
    match opcode {
        0xa7 => Some("goto"),
        0xaa => Some("tableswitch"),
        0xab => Some("lookupswitch"),
        0xac => Some("ireturn"),
        0xb0 => Some("areturn"),
        0xb1 => Some("return"),
        _ => None,
    }
}

fn references(opcode: u8) -> Option<&'static str>
    ensures { option_copied result ≡ mnemonic_in references opcode }
{
    match opcode {
        0xb2 => Some("getstatic"),
        0xb3 => Some("putstatic"),
        0xb4 => Some("getfield"),
        0xb5 => Some("putfield"),
        0xb6 => Some("invokevirtual"),
        0xb7 => Some("invokespecial"),
        0xb8 => Some("invokestatic"),
        0xb9 => Some("invokeinterface"),
        0xbb => Some("new"),
        0xbc => Some("newarray"),
        0xbd => Some("anewarray"),
        0xbe => Some("arraylength"),
        0xbf => Some("athrow"),
        0xc0 => Some("checkcast"),
        0xc1 => Some("instanceof"),
        0xc2 => Some("monitorenter"),
        0xc3 => Some("monitorexit"),
        _ => None,
    }
}

fn extended(opcode: u8) -> Option<&'static str>
    ensures { option_copied result ≡ mnemonic_in extended opcode }
{
    match opcode {
        0xc4 => Some("wide"),
        0xc6 => Some("ifnull"),
        0xc7 => Some("ifnonnull"),
        0xc8 => Some("goto_w"),
        _ => None,
    }
}

#[tactic(auto, unfolding(model::specs::OpcodeTable::low_mnemonic))]
fn low(opcode: u8) -> Option<&'static str>
    ensures { option_copied result ≡ low_mnemonic opcode }
{
    if opcode < 0x36 {
        constants_and_loads(opcode)
    } else if opcode < 0x60 {
        stores_and_stack(opcode)
    } else {
        math_and_conversions(opcode)
    }
}

#[tactic(auto, unfolding(model::specs::OpcodeTable::high_mnemonic))]
fn high(opcode: u8) -> Option<&'static str>
    ensures { option_copied result ≡ high_mnemonic opcode }
{
    if opcode < 0xa7 {
        comparisons(opcode)
    } else if opcode < 0xb2 {
        control(opcode)
    } else if opcode < 0xc4 {
        references(opcode)
    } else {
        extended(opcode)
    }
}

/// The mnemonic of an opcode (JVMS 6.5), if the table has it.
pub fn mnemonic(opcode: u8) -> Option<&'static str>
    ensures { option_copied result ≡ mnemonic_of opcode }
{
    if opcode < 0x99 {
        low(opcode)
    } else {
        high(opcode)
    }
}
