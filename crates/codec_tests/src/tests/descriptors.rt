//! The descriptors that a type is read behind.

use super::made::symbol;
use amqp_de::{CodeOrName, DescriptorSet};
use amqp_types::{Descriptor, Symbol, SymbolRef};

const OPEN: &str = "amqp:open:list";

/// Whether a name is one of them. `None`: there was no memory for it.
fn holds<D: DescriptorSet>(descriptors: &D, name: Option<Symbol>) -> Option<bool> {
    match name {
        Some(name) => Some(descriptors.contains(&Descriptor::Name(name))),
        None => None,
    }
}

#[test]
fn a_code_or_its_name(rt: HostRuntime) {
    let alloc = rt.alloc();
    let open = CodeOrName(0x10, OPEN);
    assert!(rt; open.contains(&Descriptor::Code(0x10)));
    assert!(rt; !open.contains(&Descriptor::Code(0x11)));
    assert!(rt; holds(&open, symbol(alloc, OPEN)) == Some(true));
    assert!(rt; holds(&open, symbol(alloc, "amqp:open")) == Some(false));
}

#[test]
fn one_name_alone(rt: HostRuntime) {
    let alloc = rt.alloc();
    let open = SymbolRef(OPEN);
    assert!(rt; !open.contains(&Descriptor::Code(0x10)));
    assert!(rt; holds(&open, symbol(alloc, OPEN)) == Some(true));
    assert!(rt; holds(&open, symbol(alloc, "amqp:open")) == Some(false));
}

#[test]
fn one_code_alone(rt: HostRuntime) {
    let alloc = rt.alloc();
    let open = Descriptor::Code(0x10);
    assert!(rt; open.contains(&Descriptor::Code(0x10)));
    assert!(rt; !open.contains(&Descriptor::Code(0)));
    assert!(rt; holds(&open, symbol(alloc, OPEN)) == Some(false));
}
