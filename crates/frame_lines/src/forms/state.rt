//! The commands on a handler's input, state and output.
ghost use Rattle.frame_lines.specs.Forms.{clear_all_state_fields, clear_state_fields, get_eager_state_fields, get_eager_state_keys_fields, get_lazy_state_fields, get_lazy_state_keys_fields, input_fields, output_fields, set_state_fields};

use crate::forms::Form;
use bytes::Bytes;
use frame_values::fields::{print_field, values_of};
use journal_protocol::{
    ClearAllStateCommand, ClearStateCommand, GetEagerStateCommand, GetEagerStateKeysCommand,
    GetLazyStateCommand, GetLazyStateKeysCommand, Header, InputCommand, OutputCommand,
    SetStateCommand, ValueOrFailure, VoidOrValue,
};
use lines::line::Line;
use plain::{Fault, Items, Text};
use std::alloc::{AllocError, Global};

impl Form for InputCommand {
    ghost fields = { input_fields };

    fn print(&self, line: &mut Line, is_first: bool) -> Result<bool, AllocError> {
        let is_first = print_field(line, is_first, "headers", &self.headers)?;
        print_field(line, is_first, "value", &self.value)
    }

    fn read(alloc: Global, words: &[&[u8]]) -> Result<InputCommand, Fault> {
        let names = ["headers=", "value="];
        let (headers, (value, ())) = values_of::<(Items<Header>, (Bytes, ()))>(
            alloc, words, &names,
        )?;
        Ok(InputCommand { headers, value })
    }
}

impl Form for GetEagerStateCommand {
    ghost fields = { get_eager_state_fields };

    fn print(&self, line: &mut Line, is_first: bool) -> Result<bool, AllocError> {
        let is_first = print_field(line, is_first, "name", &self.name)?;
        let is_first = print_field(line, is_first, "key", &self.key)?;
        print_field(line, is_first, "result", &self.result)
    }

    fn read(alloc: Global, words: &[&[u8]]) -> Result<GetEagerStateCommand, Fault> {
        let names = ["name=", "key=", "result="];
        let (name, (key, (result, ()))) = values_of::<(Text, (Text, (Option<VoidOrValue>, ())))>(
            alloc, words, &names,
        )?;
        Ok(GetEagerStateCommand { name, key, result })
    }
}

impl Form for GetLazyStateCommand {
    ghost fields = { get_lazy_state_fields };

    fn print(&self, line: &mut Line, is_first: bool) -> Result<bool, AllocError> {
        let is_first = print_field(line, is_first, "name", &self.name)?;
        let is_first = print_field(line, is_first, "key", &self.key)?;
        print_field(
            line,
            is_first,
            "result_completion_id",
            &self.result_completion_id,
        )
    }

    fn read(alloc: Global, words: &[&[u8]]) -> Result<GetLazyStateCommand, Fault> {
        let names = ["name=", "key=", "result_completion_id="];
        let (name, (key, (result_completion_id, ()))) = values_of::<(Text, (Text, (u32, ())))>(
            alloc, words, &names,
        )?;
        Ok(GetLazyStateCommand {
            name,
            key,
            result_completion_id,
        })
    }
}

impl Form for GetEagerStateKeysCommand {
    ghost fields = { get_eager_state_keys_fields };

    fn print(&self, line: &mut Line, is_first: bool) -> Result<bool, AllocError> {
        let is_first = print_field(line, is_first, "value", &self.value)?;
        print_field(line, is_first, "name", &self.name)
    }

    fn read(alloc: Global, words: &[&[u8]]) -> Result<GetEagerStateKeysCommand, Fault> {
        let names = ["value=", "name="];
        let (value, (name, ())) = values_of::<(Option<Items<Bytes>>, (Text, ()))>(
            alloc, words, &names,
        )?;
        Ok(GetEagerStateKeysCommand { value, name })
    }
}

impl Form for GetLazyStateKeysCommand {
    ghost fields = { get_lazy_state_keys_fields };

    fn print(&self, line: &mut Line, is_first: bool) -> Result<bool, AllocError> {
        let is_first = print_field(
            line,
            is_first,
            "result_completion_id",
            &self.result_completion_id,
        )?;
        print_field(line, is_first, "name", &self.name)
    }

    fn read(alloc: Global, words: &[&[u8]]) -> Result<GetLazyStateKeysCommand, Fault> {
        let names = ["result_completion_id=", "name="];
        let (result_completion_id, (name, ())) = values_of::<(u32, (Text, ()))>(
            alloc, words, &names,
        )?;
        Ok(GetLazyStateKeysCommand {
            result_completion_id,
            name,
        })
    }
}

impl Form for SetStateCommand {
    ghost fields = { set_state_fields };

    fn print(&self, line: &mut Line, is_first: bool) -> Result<bool, AllocError> {
        let is_first = print_field(line, is_first, "name", &self.name)?;
        let is_first = print_field(line, is_first, "key", &self.key)?;
        print_field(line, is_first, "value", &self.value)
    }

    fn read(alloc: Global, words: &[&[u8]]) -> Result<SetStateCommand, Fault> {
        let names = ["name=", "key=", "value="];
        let (name, (key, (value, ()))) = values_of::<(Text, (Text, (Bytes, ())))>(
            alloc, words, &names,
        )?;
        Ok(SetStateCommand { name, key, value })
    }
}

impl Form for ClearStateCommand {
    ghost fields = { clear_state_fields };

    fn print(&self, line: &mut Line, is_first: bool) -> Result<bool, AllocError> {
        let is_first = print_field(line, is_first, "name", &self.name)?;
        print_field(line, is_first, "key", &self.key)
    }

    fn read(alloc: Global, words: &[&[u8]]) -> Result<ClearStateCommand, Fault> {
        let names = ["name=", "key="];
        let (name, (key, ())) = values_of::<(Text, (Text, ()))>(alloc, words, &names)?;
        Ok(ClearStateCommand { name, key })
    }
}

impl Form for ClearAllStateCommand {
    ghost fields = { clear_all_state_fields };

    fn print(&self, line: &mut Line, is_first: bool) -> Result<bool, AllocError> {
        print_field(line, is_first, "name", &self.name)
    }

    fn read(alloc: Global, words: &[&[u8]]) -> Result<ClearAllStateCommand, Fault> {
        let names = ["name="];
        let (name, ()) = values_of::<(Text, ())>(alloc, words, &names)?;
        Ok(ClearAllStateCommand { name })
    }
}

impl Form for OutputCommand {
    ghost fields = { output_fields };

    fn print(&self, line: &mut Line, is_first: bool) -> Result<bool, AllocError> {
        print_field(line, is_first, "result", &self.result)
    }

    fn read(alloc: Global, words: &[&[u8]]) -> Result<OutputCommand, Fault> {
        let names = ["result="];
        let (result, ()) = values_of::<(ValueOrFailure, ())>(alloc, words, &names)?;
        Ok(OutputCommand { result })
    }
}
