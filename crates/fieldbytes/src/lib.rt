// The field-byte reader.
#![tactic(auto)]

ghost use Rattle.fieldbytes.specs.Bytes.{FieldsOf};

use fieldset::with;

// The fields of field bytes, those of them that are outputs, and whether they rise strictly, with bit 6 of each byte zero.
#[derive(Clone, Copy)]
pub struct Fields {
    pub covered: u64,
    pub outputs: u64,
    // a flag, and no Option of the fields: the definition of a saved text's candidate link takes them whether or not they rise
    pub rising: bool,
}

// Reads the field bytes of an add or a change.
pub fn read_fields(bytes: &[u8]) -> Fields
    ensures { FieldsOf bytes.now result.covered result.outputs result.rising }
{
    let mut covered = 0;
    let mut outputs = 0;
    let mut rising = true;
    // the least field that would rise
    let mut least = 0;
    for &b in bytes {
        let f = usize::from(b % 64);
        covered = with(covered, f);
        if 128 <= b {
            outputs = with(outputs, f);
        }
        if f < least || b / 64 % 2 == 1 {
            rising = false;
        }
        least = f + 1;
    }
    Fields {
        covered,
        outputs,
        rising,
    }
}
