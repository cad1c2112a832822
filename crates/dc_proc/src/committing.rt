//! Commits of one process.

ghost use Rattle.std.specs.Prelude.{◌≡◌, ◌<◌, ◌≤◌, ◌+◌, ◌-◌, ◌^◌, ℕ, [], false, true, OnErr, OnOk, length};
ghost use Rattle.dc_checkpoint.specs.States.{IsText};
ghost use Rattle.dc_kernel.specs.Kernels.{IsKernel};
ghost use Rattle.dc_kernel.specs.Layout.{kernel_words};
ghost use Rattle.dc_kernel.specs.Texts.{text_of};
ghost use Rattle.dc_media.specs.Told.{Becomes};
ghost use Rattle.dc_checkpoint.specs.Calls.{IsCall, on};
ghost use Rattle.dc_checkpoint.specs.Handles.{showing_of};
ghost use Rattle.dc_proc.specs.Carried.{Carries, Leaves, process};
ghost use Rattle.dc_proc.specs.Processes.{IsCopied, IsNumbered, IsPaired, committed_held, form_of, next_commit};
ghost use Rattle.dc_proc.specs.Ups.{IsSameUp, IsWhole, held};
ghost use Rattle.dc_recovery.specs.Parts.{committed, first_of, torn};

use crate::up::{Up, copy_received};
use dc_checkpoint::{CheckFault, Checkpoint};
use dc_guest::Guest;
use dc_kernel::Kernel;
use dc_limits::LOGGED_EVENTS;

/// Writes the text of a kernel as of the commit of this number, with the registers of its guest.
fn encode_as(kernel: &mut Kernel, guest: &Guest, number: u32, text: &mut [u32])
    requires long { length text.old ≡ kernel_words kernel.old.n }
    ensures kernel { kernel.new ≡ record kernel.old { commit = number; regs = record { x = guest.now.registers; pc = guest.now.pc } } }
    ensures text { text.new ≡ text_of kernel.new }
    ensures faultless { IsText (form_of kernel.old) text.new }
    ensures valid { IsKernel kernel.old.n kernel.old.p kernel.new }
{
    kernel.set_commit(number);
    kernel.set_regs(*guest.regs());
    kernel.encode(text);
}

impl Up {
    /// Writes the text of its kernel as of the commit of this number, for a joint commit: it counts once that is decided.
    pub fn write_next(&mut self, number: u32, text: &mut [u32])
        requires whole { IsWhole self.old }
        requires long { length text.old ≡ kernel_words self.old.kernel.n }
        ensures held { held self.new ≡ record (held self.old) { kernel = record (held self.old).kernel { commit = number } } }
        ensures text { text.new ≡ text_of (record (held self.old).kernel { commit = number }) }
        ensures faultless { IsText (form_of self.old.kernel) text.new }
        ensures kernel { IsKernel self.old.kernel.n self.old.kernel.p (record (held self.old).kernel { commit = number }) }
        ensures same { IsSameUp self.old self.new }
        ensures whole { IsWhole self.new }
    {
        encode_as(&mut self.kernel, &self.guest, number, text);
    }

    /// Notes that a commit was acknowledged: nothing is left to read, the mark of an unlogged event is clear, the log is empty.
    pub fn settle(&mut self)
        requires whole { IsWhole self.old }
        ensures held { held self.new ≡ record (held self.old) { unread = []; unlogged = false; log_left = LOGGED_EVENTS; based = (held self.new).based } }
        ensures based { IsCopied self.old.kernel (held self.new).based }
        ensures same { IsSameUp self.old self.new }
        ensures whole { IsWhole self.new }
    {
        self.read = self.log.len();
        self.unlogged = false;
        self.log_left = LOGGED_EVENTS;
        copy_received(&self.kernel, &mut self.based);
    }

    /// Commits. Refused, each image stands for what it stood for, or for this state.
    fn commit<C: Checkpoint>(
        &mut self,
        store: &mut C,
        dev: &mut C::Device,
    ) -> Result<(), CheckFault>
        requires lent { C.lent store.old dev.old }
        requires ready { C.ready store.old dev.old }
        requires paired { IsPaired (held self.old) (C.form store.old) (C.number store.old) (C.logged store.old) }
        requires number { self.old.kernel.commit < 2 ^ 32 - 1 }
        requires whole { IsWhole self.old }
        ensures call { IsCall (showing_of C.Checkpoint) (on store.old dev.old) (on store.new dev.new) result }
        ensures ready { OnOk result (C.ready store.new dev.new) }
        ensures paired { OnOk result (IsPaired (held self.new) (C.form store.new) (C.number store.new) (C.logged store.new)) }
        ensures memory { OnOk result (Becomes (C.contents store.old dev.old) (C.contents store.new dev.new) (λ before after. after ≡ before)) }
        ensures number { self.new.kernel.commit ≤ self.old.kernel.commit + 1 }
        ensures held { OnOk result (held self.new ≡ committed_held (held self.old) self.new.based) }
        ensures copied { OnOk result (IsCopied self.old.kernel self.new.based) }
        ensures based { OnErr result (self.new.based ≡ self.old.based) }
        ensures numbered { (d most : ℕ) → C.floor store.old ≤ d → self.old.kernel.commit ≤ most → IsNumbered most (C.leaves store.old dev.old d) → IsNumbered (most + 1) (C.leaves store.new dev.new d) }
        ensures same { IsSameUp self.old self.new }
        ensures guest { self.new.guest ≡ self.old.guest }
        ensures whole { IsWhole self.new }
        ensures goes { OnOk result (Carries C.Checkpoint committed (process store.old dev.old (held self.old)) (process store.new dev.new (held self.new))) }
        ensures torn { OnErr result (Leaves C.Checkpoint torn (process store.old dev.old (held self.old)) (process store.new dev.new (held self.old))) }
    {
        let number = self.kernel.commit() + 1;
        encode_as(&mut self.kernel, &self.guest, number, &mut self.text);
        store.commit(dev, &self.text)?;
        self.settle();
        Ok(())
    }

    /// Commits where it is due.
    pub(crate) fn commit_if<C: Checkpoint>(
        &mut self,
        due: bool,
        store: &mut C,
        dev: &mut C::Device,
    ) -> Result<(), CheckFault>
        requires lent { C.lent store.old dev.old }
        requires ready { C.ready store.old dev.old }
        requires paired { IsPaired (held self.old) (C.form store.old) (C.number store.old) (C.logged store.old) }
        requires number { self.old.kernel.commit < 2 ^ 32 - 1 }
        requires whole { IsWhole self.old }
        ensures call { IsCall (showing_of C.Checkpoint) (on store.old dev.old) (on store.new dev.new) result }
        ensures ready { OnOk result (C.ready store.new dev.new) }
        ensures paired { OnOk result (IsPaired (held self.new) (C.form store.new) (C.number store.new) (C.logged store.new)) }
        ensures number { self.new.kernel.commit ≤ self.old.kernel.commit + 1 }
        ensures memory { OnOk result (Becomes (C.contents store.old dev.old) (C.contents store.new dev.new) (λ before after. after ≡ before)) }
        ensures held { OnOk result (due ≡ true → held self.new ≡ committed_held (held self.old) self.new.based) }
        ensures copied { OnOk result (due ≡ true → IsCopied self.old.kernel self.new.based) }
        ensures based { OnErr result (self.new.based ≡ self.old.based) }
        ensures numbered { (d most : ℕ) → C.floor store.old ≤ d → self.old.kernel.commit ≤ most → IsNumbered most (C.leaves store.old dev.old d) → IsNumbered (most + 1) (C.leaves store.new dev.new d) }
        ensures kept { OnOk result (due ≡ false → self.new ≡ self.old) }
        ensures untouched { due ≡ false → (store.new ≡ store.old) × (dev.new ≡ dev.old) }
        ensures same { IsSameUp self.old self.new }
        ensures guest { self.new.guest ≡ self.old.guest }
        ensures whole { IsWhole self.new }
        ensures goes { OnOk result (Carries C.Checkpoint (first_of due) (process store.old dev.old (held self.old)) (process store.new dev.new (held self.new))) }
        ensures due { OnErr result (due ≡ true) }
        ensures torn { OnErr result (Leaves C.Checkpoint torn (process store.old dev.old (held self.old)) (process store.new dev.new (held self.old))) }
    {
        if due {
            return self.commit(store, dev);
        }
        Ok(())
    }
}
